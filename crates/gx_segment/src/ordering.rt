// PREPARE, COMMIT, COMMIT PREPARED, ABORT and FORGET.
ghost use Rattle.std.specs.Prelude.{◌≡◌, ◌≤◌, ◌==◌, ◌&&◌, Bool, false, [], ◌++◌, if◌then◌else◌, None, IfOk, OnOk};
ghost use Rattle.std.specs.BTreeMap.{get};
ghost use Rattle.std.specs.BTreeSet.{contains};
ghost use Rattle.gx_ids.specs.declared.ids.Gxid.{Gxid};
ghost use Rattle.gx_dsnap.specs.Gxids.{gxid_cmp};
ghost use Rattle.gx_node.specs.Changes.{Does, change_of, left_locks, left_marks, marks_in};
ghost use Rattle.gx_node.specs.Orders.{IsLaterBy, Took};
ghost use Rattle.gx_node.specs.Phases.{local_of, phase_of};
ghost use Rattle.gx_rules.specs.Segments.{has_ended};
ghost use Rattle.gx_slices.specs.Agrees.{IsHeld, entry_at, local_in, rows_in};
ghost use Rattle.gx_segment.specs.Before.{Before};
ghost use Rattle.gx_segment.specs.Done.{HasDone, answer_of, came};
ghost use Rattle.gx_segment.specs.Moves.{HasMoved, HasTaken, order_turn, status_in};

use crate::done::{Done, answer, nothing};
use crate::entries::{Entries, new_entry, put_in};
use gx_dtx::order::Order;
use gx_ids::{Gxid, Mem, Node};
use gx_locks::LockTable;
use gx_node::{Phase, Taken, give_back, take_order};
use gx_outside::Journal;
use gx_rows::LocalStatus;
use gx_slices::{Entry, Held};
use gx_store::Mark;
use std::alloc::Global;
use std::collections::BTreeSet;

// Takes an order for a transaction.
pub(crate) fn take<J: Journal>(
    alloc: Global,
    node: Node,
    held: &mut Held,
    horizon: Gxid,
    gxid: Gxid,
    order: Order,
    journal: &mut J,
    marks: &mut Vec<Mark>,
) -> Mem<Done>
    ghost was: { Before }
    requires node { node ≡ was.seg.node }
    requires held { IsHeld was.script.tables held.old was.seg }
    requires horizon { horizon ≡ was.seg.horizon }
    requires blank { marks.old.items ≡ [] }
    ensures done { IfOk result (λ done. HasDone was.script.tables held.new horizon (came marks.new.items done) (order_turn order was.seg gxid done.fails)) }
    ensures took { IfOk result (λ done. Took (J.shelf journal.old) (J.shelf journal.new) done.fails (order_turn order was.seg gxid done.fails).item) }
    ensures later { IsLaterBy (J.shelf journal.old) (J.shelf journal.new) (order_turn order was.seg gxid false).item }
{
    if gxid < horizon {
        return Ok(nothing());
    }
    let taken = obey(alloc, node, held, gxid, order, journal)?;
    let done = done_of(alloc, node, &mut held.locks, gxid, taken, marks)?;
    Ok(done)
}

// Who has ended here gives its locks back.
fn done_of(
    alloc: Global,
    node: Node,
    locks: &mut LockTable,
    gxid: Gxid,
    taken: Taken,
    marks: &mut Vec<Mark>,
) -> Mem<Done>
    requires blank { marks.old.items ≡ [] }
    ensures done { IfOk result (λ done. came marks.new.items done
        ≡ record { marks = marks_in taken.mark ++ left_marks taken.ends node locks.old gxid; answer = answer_of gxid taken.reply; fails = taken.fails }) }
    ensures locks { OnOk result (locks.new ≡ left_locks taken.ends locks.old gxid) }
{
    note_first(taken.mark(), marks)?;
    leave_locks(alloc, node, locks, gxid, taken.ends(), marks)?;
    Ok(Done {
        answer: answer(gxid, taken.reply()),
        fails: taken.fails(),
    })
}

fn leave_locks(
    alloc: Global,
    node: Node,
    locks: &mut LockTable,
    gxid: Gxid,
    ends: bool,
    marks: &mut Vec<Mark>,
) -> Mem<()>
    ensures locks { OnOk result (locks.new ≡ left_locks ends locks.old gxid) }
    ensures marks { OnOk result (marks.new.items ≡ marks.old.items ++ left_marks ends node locks.old gxid) }
{
    if ends {
        give_back(alloc, node, locks, gxid, marks)?;
    }
    Ok(())
}

fn note_first(mark: Option<Mark>, marks: &mut Vec<Mark>) -> Mem<()>
    requires { marks.old.items ≡ [] }
    ensures { OnOk result (marks.new.items ≡ marks_in mark) }
{
    if let Some(mark) = mark {
        marks.push(mark)?;
    }
    Ok(())
}

// Takes the order, and notes what it made of the transaction.
fn obey<J: Journal>(
    alloc: Global,
    node: Node,
    held: &mut Held,
    gxid: Gxid,
    order: Order,
    journal: &mut J,
) -> Mem<Taken>
    requires { held.old.store.horizon.0 ≤ gxid.0 }
    ensures moved { IfOk result (λ taken. HasMoved held.old held.new gxid (change_of order node gxid (rows_in (entry_at held.old gxid)) taken.fails (local_in (entry_at held.old gxid))) taken) }
    ensures took { IfOk result (λ taken. Took (J.shelf journal.old) (J.shelf journal.new) taken.fails
        (change_of order node gxid (rows_in (entry_at held.old gxid)) taken.fails (local_in (entry_at held.old gxid))).item) }
    ensures later { IsLaterBy (J.shelf journal.old) (J.shelf journal.new) (change_of order node gxid (rows_in (entry_at held.old gxid)) false (local_in (entry_at held.old gxid))).item }
{
    let mut phase = Phase::Reading;
    let taken = take_in(
        alloc,
        node,
        &mut held.entries,
        gxid,
        order,
        &mut phase,
        journal,
    )?;
    held.store.set_status(gxid, status(phase));
    leave_ended(&mut held.holders, gxid, phase);
    Ok(taken)
}

// Takes the order at the transaction's entry, and tells the phase in which that is then.
fn take_in<J: Journal>(
    alloc: Global,
    node: Node,
    entries: &mut Entries,
    gxid: Gxid,
    order: Order,
    phase: &mut Phase,
    journal: &mut J,
) -> Mem<Taken>
    ensures taken { IfOk result (λ taken. HasTaken entries.old entries.new gxid
        (change_of order node gxid (rows_in (get gxid_cmp entries.old gxid)) taken.fails (local_in (get gxid_cmp entries.old gxid))) taken (phase_of phase.new)) }
    ensures took { IfOk result (λ taken. Took (J.shelf journal.old) (J.shelf journal.new) taken.fails
        (change_of order node gxid (rows_in (get gxid_cmp entries.old gxid)) taken.fails (local_in (get gxid_cmp entries.old gxid))).item) }
    ensures later { IsLaterBy (J.shelf journal.old) (J.shelf journal.new) (change_of order node gxid (rows_in (get gxid_cmp entries.old gxid)) false (local_in (get gxid_cmp entries.old gxid))).item }
{
    match entries.get_mut(&gxid) {
        Some(entry) => take_at(alloc, node, gxid, order, entry, phase, journal),
        None => take_new(alloc, node, entries, gxid, order, phase, journal),
    }
}

// Of a transaction of which nothing has come here.
fn take_new<J: Journal>(
    alloc: Global,
    node: Node,
    entries: &mut Entries,
    gxid: Gxid,
    order: Order,
    phase: &mut Phase,
    journal: &mut J,
) -> Mem<Taken>
    requires { get gxid_cmp entries.old gxid ≡ None }
    ensures taken { IfOk result (λ taken. HasTaken entries.old entries.new gxid
        (change_of order node gxid (rows_in (get gxid_cmp entries.old gxid)) taken.fails (local_in (get gxid_cmp entries.old gxid))) taken (phase_of phase.new)) }
    ensures took { IfOk result (λ taken. Took (J.shelf journal.old) (J.shelf journal.new) taken.fails
        (change_of order node gxid (rows_in (get gxid_cmp entries.old gxid)) taken.fails (local_in (get gxid_cmp entries.old gxid))).item) }
    ensures later { IsLaterBy (J.shelf journal.old) (J.shelf journal.new) (change_of order node gxid (rows_in (get gxid_cmp entries.old gxid)) false (local_in (get gxid_cmp entries.old gxid))).item }
{
    let mut entry = new_entry(alloc);
    match take_at(alloc, node, gxid, order, &mut entry, phase, journal) {
        Ok(taken) => {
            put_in(entries, gxid, entry)?;
            Ok(taken)
        }
        Err(fault) => {
            drop(entry);
            Err(fault)
        }
    }
}

fn take_at<J: Journal>(
    alloc: Global,
    node: Node,
    gxid: Gxid,
    order: Order,
    entry: &mut Entry,
    phase: &mut Phase,
    journal: &mut J,
) -> Mem<Taken>
    ensures does { IfOk result (λ taken. Does (change_of order node gxid entry.old.kept taken.fails (local_of entry.old.local)) (local_of entry.new.local) taken) }
    ensures phase { OnOk result (phase.new ≡ entry.new.local.phase) }
    ensures kept { entry.new.kept ≡ entry.old.kept }
    ensures took { IfOk result (λ taken. Took (J.shelf journal.old) (J.shelf journal.new) taken.fails (change_of order node gxid entry.old.kept taken.fails (local_of entry.old.local)).item) }
    ensures later { IsLaterBy (J.shelf journal.old) (J.shelf journal.new) (change_of order node gxid entry.old.kept false (local_of entry.old.local)).item }
{
    let local = &mut entry.local;
    let taken = take_order(alloc, node, gxid, order, local, &entry.kept, journal);
    *phase = entry.local.phase;
    taken
}

// What the store says of a transaction in a phase.
fn status(phase: Phase) -> LocalStatus
    ensures { result ≡ status_in (phase_of phase) }
{
    match phase {
        Phase::Reading | Phase::Writing => LocalStatus::Running,
        Phase::Prepared => LocalStatus::Prepared,
        Phase::Committed | Phase::Forgotten(true) => LocalStatus::Committed,
        Phase::Forgotten(false) | Phase::Aborted => LocalStatus::Aborted,
    }
}

// Who has ended here is no holder any more.
fn leave_ended(holders: &mut BTreeSet<Gxid>, gxid: Gxid, phase: Phase)
    ensures { (g : Gxid) → contains gxid_cmp holders.new g ≡ (if has_ended (phase_of phase) && (g.0 == gxid.0) then false else contains gxid_cmp holders.old g) }
{
    match phase {
        Phase::Forgotten(_) | Phase::Aborted => leave(holders, gxid),
        _ => {}
    }
}

fn leave(holders: &mut BTreeSet<Gxid>, gxid: Gxid)
    ensures { (g : Gxid) → contains gxid_cmp holders.new g ≡ (if g.0 == gxid.0 then false else contains gxid_cmp holders.old g) }
{
    holders.remove(&gxid);
}
