// Which lock a statement takes on its table, and a slice at its segment.
ghost use Rattle.std.specs.Prelude.{◌≡◌, IfSome, false};
ghost use Rattle.gx_store.specs.Locks as legal;
ghost use Rattle.gx_waits.specs.declared.object.Object.TheVariants as object;
ghost use Rattle.gx_node.specs.Locking.{is_on_transaction};

use gx_ids::{Gxid, Table};
use gx_modes::Mode;
use gx_script::Script;
use gx_tree::{Slice, Stmt};
use gx_waits::{Claim, Object};

fn claim_on(gxid: Gxid, table: Table, mode: Mode) -> Claim
    ensures { result ≡ record { gxid = gxid; object = object.Relation table; mode = mode } }
{
    Claim {
        gxid,
        object: Object::Relation(table),
        mode,
    }
}

// Where no detector finds deadlocks, one transaction at a time changes a table's rows.
fn changing_mode(script: &Script) -> Mode
    ensures { result ≡ legal.changing_mode script.now }
{
    if script.detector {
        Mode::RowExclusive
    } else {
        Mode::Exclusive
    }
}

/// The lock that a statement takes on its table.
pub fn table_lock(script: &Script, gxid: Gxid, line: &Stmt) -> Option<Claim>
    ensures value { result ≡ legal.table_lock script.now gxid line.now }
    ensures own { IfSome result (λ wanted. wanted.gxid ≡ gxid) }
{
    match line {
        Stmt::Select(query) => Some(claim_on(gxid, query.get().table, Mode::AccessShare)),
        Stmt::Insert(table, _) => Some(claim_on(gxid, *table, Mode::RowExclusive)),
        Stmt::Update(table, _, _) => Some(claim_on(gxid, *table, changing_mode(script))),
        Stmt::Delete(table, _) => Some(claim_on(gxid, *table, changing_mode(script))),
        Stmt::Lock(table, mode) => Some(claim_on(gxid, *table, *mode)),
        Stmt::Begin(_) => None,
        Stmt::Commit => None,
        Stmt::Rollback => None,
    }
}

/// The lock that a slice takes on its table.
pub fn slice_lock(script: &Script, gxid: Gxid, slice: &Slice) -> Claim
    ensures value { result ≡ legal.slice_lock script.now gxid slice.now }
    ensures own { result.gxid ≡ gxid }
    ensures on_table { is_on_transaction result.object ≡ false }
{
    match slice {
        Slice::Select(query) => claim_on(gxid, query.get().table, Mode::AccessShare),
        Slice::Insert(table, _) => claim_on(gxid, *table, Mode::RowExclusive),
        Slice::Update(table, _, _) => claim_on(gxid, *table, changing_mode(script)),
        Slice::Delete(table, _) => claim_on(gxid, *table, changing_mode(script)),
        Slice::Lock(table, mode) => claim_on(gxid, *table, *mode),
    }
}
