// A command gives a row of a table a new image.
ghost use Rattle.std.specs.Prelude.{◌≡◌, ◌≤◌, ◌++◌, true, false, OnOk};
ghost use Rattle.std.specs.List.{list_any};
ghost use Rattle.gx_waits.specs.Claims.{is_free, is_of};
ghost use Rattle.gx_node.specs.Phases.{phase_of};
ghost use Rattle.gx_rules.specs.Slices as rule;
ghost use Rattle.gx_slices.specs.Inserts.{IsPut};
ghost use Rattle.gx_slices.specs.Owning.{own_locks, own_marks};

use crate::held::{Entry, Held};
use gx_ids::{Cid, Duplicate, Gxid, Mem, Node, Rid, Table};
use gx_locks::LockTable;
use gx_modes::Mode;
use gx_node::{Phase, take_free};
use gx_store::Mark;
use gx_tree::Row;
use gx_waits::{Claim, Object};
use std::alloc::Global;

/// A command that writes rows of a table at a node.
#[derive(Clone, Copy)]
pub(crate) struct Writer {
    pub node: Node,
    pub gxid: Gxid,
    pub cid: Cid,
    pub table: Table,
}

// A transaction's own lock, which is free for it.
pub(crate) fn own_lock(gxid: Gxid) -> Claim
    ensures { result ≡ rule.own_lock gxid }
{
    Claim {
        gxid,
        object: Object::Transaction(gxid),
        mode: Mode::Exclusive,
    }
}

// Who has written nothing here takes its own lock.
fn take_own(
    node: Node,
    locks: &mut LockTable,
    gxid: Gxid,
    phase: Phase,
    marks: &mut Vec<Mark>,
) -> Mem<()>
    requires { is_free locks.old.holds (rule.own_lock gxid) ≡ true }
    ensures locks { OnOk result (locks.new ≡ own_locks gxid (phase_of phase) locks.old) }
    ensures marks { OnOk result (marks.new.items ≡ marks.old.items ++ own_marks node gxid (phase_of phase)) }
{
    match phase {
        Phase::Reading => take_free(node, locks, own_lock(gxid), marks),
        _ => Ok(()),
    }
}

// Gives the row the image, with a mark. The transaction locks itself with its first write here.
pub(crate) fn write_row(
    alloc: Global,
    writer: Writer,
    held: &mut Held,
    entry: &mut Entry,
    rid: Rid,
    image: Option<Row>,
    marks: &mut Vec<Mark>,
) -> Mem<()>
    requires alive { held.old.store.horizon.0 ≤ writer.gxid.0 }
    requires waits { list_any (is_of writer.gxid) held.old.locks.waits ≡ false }
    requires free { is_free held.old.locks.holds (rule.own_lock writer.gxid) ≡ true }
    ensures { OnOk result (IsPut writer.gxid writer.cid writer.node writer.table rid image held.old held.new entry.old entry.new marks.old.items marks.new.items) }
{
    let Writer {
        node,
        gxid,
        cid,
        table,
    } = writer;
    held.store.write(gxid, cid, table, rid, image.copy(alloc)?)?;
    entry.kept.put(rid, table, image.copy(alloc)?)?;
    marks.push(Mark::Write {
        gxid,
        cid,
        node,
        table,
        rid,
        image,
    })?;
    take_own(node, &mut held.locks, gxid, entry.local.phase, marks)?;
    entry.local.phase = Phase::Writing;
    Ok(())
}
