ghost use Rattle.std.specs.Prelude.{◌≡◌, ◌≤◌, [], IfOk, Ok, Err};
ghost use Rattle.gx_meaning.specs.declared.fault.ArithFault.{ArithFault};
ghost use Rattle.gx_eval.specs.Faults.{eval_fault};
ghost use Rattle.gx_meaning.specs.Plan.{IsCommand, IsSame, plan_of};

use crate::insertion::{dealt_rows, insert_pieces};
use crate::sending::{send, send_to_all};
use gx_eval::EvalFault;
use gx_ids::{Cid, Duplicate, Gxid, Mem};
use gx_meaning::Piece;
use gx_tree::{Schema, Slice, Stmt};
use std::alloc::Global;

/// The pieces of a command on a table among `n` segments, by segment: an INSERT goes to the segments of its rows, LOCK
/// TABLE to all, the others to the target of their condition. An INSERT's constants are evaluated here, and the first
/// that faults gives the fault.
pub fn plan(
    alloc: Global,
    stmt: &Stmt,
    schema: &Schema,
    gxid: Gxid,
    cid: Cid,
    n: u8,
) -> Result<Vec<Piece>, EvalFault>
    requires some { 1 ≤ n }
    requires few { n ≤ 16 }
    requires command { IsCommand schema.now.dist stmt.now }
    ensures pieces { IfOk result (λ found. plan_of n schema.now.dist gxid cid stmt.now ≡ Ok found.items) }
    ensures fault { (fault : ArithFault) → result ≡ Err (eval_fault fault) → plan_of n schema.now.dist gxid cid stmt.now ≡ Err fault }
{
    plan_in(alloc, Vec::new(alloc), stmt, schema, gxid, cid, n)
}

/// The same, in a list that has nothing in it.
pub fn plan_in(
    alloc: Global,
    blank: Vec<Piece>,
    stmt: &Stmt,
    schema: &Schema,
    gxid: Gxid,
    cid: Cid,
    n: u8,
) -> Result<Vec<Piece>, EvalFault>
    requires blank { blank.items ≡ [] }
    requires some { 1 ≤ n }
    requires few { n ≤ 16 }
    requires command { IsCommand schema.now.dist stmt.now }
    ensures pieces { IfOk result (λ found. plan_of n schema.now.dist gxid cid stmt.now ≡ Ok found.items) }
    ensures fault { (fault : ArithFault) → result ≡ Err (eval_fault fault) → plan_of n schema.now.dist gxid cid stmt.now ≡ Err fault }
{
    match stmt {
        Stmt::Insert(table, tuples) => {
            let buckets = dealt_rows(alloc, tuples.as_slice(), schema, gxid, cid, n)?;
            Ok(insert_pieces(alloc, blank, *table, buckets)?)
        }
        _ => Ok(same_slices(alloc, blank, stmt, schema, n)?),
    }
}

// The pieces of a command that sends the same slice wherever it goes.
fn same_slices(
    alloc: Global,
    blank: Vec<Piece>,
    stmt: &Stmt,
    schema: &Schema,
    n: u8,
) -> Mem<Vec<Piece>>
    requires blank { blank.items ≡ [] }
    requires some { 1 ≤ n }
    requires few { n ≤ 16 }
    requires same { IsSame stmt.now }
    ensures { IfOk result (λ found. (gxid : Gxid) (cid : Cid) → plan_of n schema.now.dist gxid cid stmt.now ≡ Ok found.items) }
{
    match stmt {
        Stmt::Select(query) => {
            let slice = Slice::Select(query.copy(alloc)?);
            send(alloc, blank, schema, query.get().cond.as_ref(), n, slice)
        }
        Stmt::Update(table, assigns, cond) => {
            let assigns = assigns.copy(alloc)?;
            let slice = Slice::Update(*table, assigns, cond.copy(alloc)?);
            send(alloc, blank, schema, cond.get().as_ref(), n, slice)
        }
        Stmt::Delete(table, cond) => {
            let slice = Slice::Delete(*table, cond.copy(alloc)?);
            send(alloc, blank, schema, cond.get().as_ref(), n, slice)
        }
        Stmt::Lock(table, mode) => send_to_all(alloc, blank, n, Slice::Lock(*table, *mode)),
        Stmt::Insert(_, _) | Stmt::Begin(_) | Stmt::Commit | Stmt::Rollback => unreachable!(),
    }
}
