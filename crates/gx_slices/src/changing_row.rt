// One row of a command that changes rows.
ghost use Rattle.std.specs.Prelude.{◌≡◌, ◌++◌, ◌∷◌, [], false, IfOk, OnOk, Some};
ghost use Rattle.std.specs.List.{list_any};
ghost use Rattle.gx_waits.specs.Claims.{is_of};
ghost use Rattle.gx_store.specs.declared.mark.Mark.TheVariants as mark;
ghost use Rattle.gx_rules.specs.Changes as rule;
ghost use Rattle.gx_rules.specs.Shown.{current_of};
ghost use Rattle.gx_rules.specs.Slices as slices;
ghost use Rattle.gx_slices.specs.Stopping.{has_row, left_locks, left_marks, locks_after, marks_after, row_locks, row_marks, stop_locks, stop_marks};
ghost use Rattle.gx_store.specs.Commands.{condition_on};
ghost use Rattle.gx_slices.specs.Sweeping.{IsSwept, LeavesSwept, Writes};
ghost use Rattle.gx_slices.specs.Changing.{Came, IsAt, IsFree, IsRightImage, IsTypedFor, MayChange, Spot, Stage, awaited_in, change_in, end_of, is_done_at, newest_in};

use crate::change::Change;
use crate::changing::{Writer, write_row};
use crate::held::{Entry, Held};
use crate::newest::{Newest, awaited, overtaker};
use crate::selecting::cause;
use crate::setting::new_image;
use gx_eval::decide;
use gx_ids::{Gxid, Mem, Node, Rid};
use gx_locks::LockTable;
use gx_meaning::ArithFault;
use gx_modes::Mode;
use gx_msg::Cause;
use gx_node::{ask_for, give_back_one, is_held, wait_for};
use gx_store::Mark;
use gx_tree::{Cond, Level, Row};
use gx_waits::{Claim, Object};
use std::alloc::Global;

/// What has come of a row.
#[derive(Clone, Copy)]
pub(crate) enum RowEnd {
    Written,
    Skipped,
    Waiting,
    Failing(Cause),
}

// WRITTEN, SKIPPED OR FAULTED ON
fn skip(change: &Change, rid: Rid, marks: &mut Vec<Mark>) -> Mem<RowEnd>
    ensures { IfOk result (λ end. (end ≡ RowEnd.Skipped) × (marks.new.items ≡ marks.old.items ++ mark.Skip change.now.writer.gxid change.now.writer.cid rid ∷ [])) }
{
    marks.push(Mark::Skip {
        gxid: change.writer.gxid,
        cid: change.writer.cid,
        rid,
    })?;
    Ok(RowEnd::Skipped)
}

fn fault(
    change: &Change,
    rid: Rid,
    old: Row,
    fault: ArithFault,
    marks: &mut Vec<Mark>,
) -> Mem<RowEnd>
    ensures { IfOk result (λ end. (end ≡ RowEnd.Failing (slices.cause_of fault)) × (marks.new.items ≡ marks.old.items ++ mark.Fault change.now.writer.gxid change.now.writer.cid rid (Some old) ∷ [])) }
{
    marks.push(Mark::Fault {
        gxid: change.writer.gxid,
        cid: change.writer.cid,
        rid,
        image: Some(old),
    })?;
    Ok(RowEnd::Failing(cause(fault)))
}

// The row gets what the command makes of it, where that has no fault.
fn change_row(
    alloc: Global,
    change: &Change,
    held: &mut Held,
    entry: &mut Entry,
    rid: Rid,
    old: Row,
    marks: &mut Vec<Mark>,
) -> Mem<RowEnd>
    ghost stage: { Stage }
    requires may { MayChange stage.found.tables stage.found.start change.now }
    requires at { IsAt stage change.now.writer.gxid held.old entry.old marks.old.items }
    requires free { IsFree stage change.now.writer.gxid }
    requires right { IsRightImage stage.found.tables change.now.writer.table (Some old) }
    ensures came { IfOk result (λ end. Came stage change.now.writer.gxid held.new entry.new marks.new.items
        (rule.writes stage.moved change.now.writer.gxid (change_in change.now) rid old (rule.new_image change.now.set old)) end) }
    ensures written { IfOk result (λ end. Writes change.now rid held.old.store held.new.store end) }
{
    match new_image(alloc, &change.set, &old)? {
        Ok(image) => {
            drop(old);
            write_row(alloc, change.writer, held, entry, rid, image, marks)?;
            Ok(RowEnd::Written)
        }
        Err(why) => fault(change, rid, old, why, marks),
    }
}

// What the condition, where there is one, says of a row.
fn is_true(cond: &Option<Cond>, row: &Row) -> Result<bool, ArithFault>
    requires { IsTypedFor cond.now row.now }
    ensures { result ≡ condition_on cond.now row.now }
{
    match cond {
        Some(cond) => decide(cond, row),
        None => Ok(true),
    }
}

// At read committed the condition is tested again, on the current row; who finds none skips it.
fn change_if_true(
    alloc: Global,
    change: &Change,
    held: &mut Held,
    entry: &mut Entry,
    rid: Rid,
    image: Option<Row>,
    marks: &mut Vec<Mark>,
) -> Mem<RowEnd>
    ghost stage: { Stage }
    requires may { MayChange stage.found.tables stage.found.start change.now }
    requires at { IsAt stage change.now.writer.gxid held.old entry.old marks.old.items }
    requires free { IsFree stage change.now.writer.gxid }
    requires right { IsRightImage stage.found.tables change.now.writer.table image }
    ensures came { IfOk result (λ end. Came stage change.now.writer.gxid held.new entry.new marks.new.items
        (rule.looks_again stage.moved change.now.writer.gxid (change_in change.now) rid image) end) }
    ensures written { IfOk result (λ end. Writes change.now rid held.old.store held.new.store end) }
{
    match image {
        Some(old) => match is_true(change.cond.get(), &old) {
            Ok(true) => change_row(alloc, change, held, entry, rid, old, marks),
            Ok(false) => {
                drop(old);
                skip(change, rid, marks)
            }
            Err(why) => fault(change, rid, old, why, marks),
        },
        None => skip(change, rid, marks),
    }
}

// At repeatable read the row that was selected is changed.
fn change_shown(
    alloc: Global,
    change: &Change,
    held: &mut Held,
    entry: &mut Entry,
    rid: Rid,
    image: Option<Row>,
    marks: &mut Vec<Mark>,
) -> Mem<RowEnd>
    ghost stage: { Stage }
    requires may { MayChange stage.found.tables stage.found.start change.now }
    requires at { IsAt stage change.now.writer.gxid held.old entry.old marks.old.items }
    requires free { IsFree stage change.now.writer.gxid }
    requires right { IsRightImage stage.found.tables change.now.writer.table image }
    ensures came { IfOk result (λ end. Came stage change.now.writer.gxid held.new entry.new marks.new.items
        (rule.changes_shown stage.moved change.now.writer.gxid (change_in change.now) rid image) end) }
    ensures written { IfOk result (λ end. Writes change.now rid held.old.store held.new.store end) }
{
    match image {
        Some(old) => change_row(alloc, change, held, entry, rid, old, marks),
        None => skip(change, rid, marks),
    }
}

// A row whose newest version is settled.
fn process(
    alloc: Global,
    change: &Change,
    held: &mut Held,
    entry: &mut Entry,
    rid: Rid,
    newest: Newest,
    marks: &mut Vec<Mark>,
) -> Mem<RowEnd>
    ghost spot: { Spot }
    requires may { MayChange spot.stage.found.tables spot.stage.found.start change.now }
    requires at { IsAt spot.stage change.now.writer.gxid held.old entry.old marks.old.items }
    requires free { IsFree spot.stage change.now.writer.gxid }
    requires newest { newest ≡ newest_in held.old.store.horizon spot.version }
    requires current { current_of spot.stage.moved.seg change.now.writer.table rid ≡ Some spot.version }
    ensures came { IfOk result (λ end. Came spot.stage change.now.writer.gxid held.new entry.new marks.new.items
        (rule.processes spot.stage.moved change.now.writer.gxid (change_in change.now) rid spot.version change.now.level) end) }
    ensures written { IfOk result (λ end. Writes change.now rid held.old.store held.new.store end) }
{
    let Newest { writer, cid, image } = newest;
    match change.level {
        Level::ReadCommitted => change_if_true(alloc, change, held, entry, rid, image, marks),
        Level::RepeatableRead => match overtaker(change, &held.store, writer, cid) {
            Some(writer) => {
                drop(image);
                Ok(RowEnd::Failing(Cause::Serialization(rid, writer)))
            }
            None => change_shown(alloc, change, held, entry, rid, image, marks),
        },
    }
}

// WAITING
fn tuple_lock(gxid: Gxid, rid: Rid) -> Claim
    ensures { result ≡ rule.tuple_lock gxid rid }
{
    Claim {
        gxid,
        object: Object::Tuple(rid),
        mode: Mode::Exclusive,
    }
}

fn end_lock(gxid: Gxid, other: Gxid) -> Claim
    ensures { result ≡ rule.end_lock gxid other }
{
    Claim {
        gxid,
        object: Object::Transaction(other),
        mode: Mode::Share,
    }
}

// Whether the command has the row's lock, which it asks for unless it holds it.
fn ask_for_row(
    node: Node,
    locks: &mut LockTable,
    gxid: Gxid,
    rid: Rid,
    marks: &mut Vec<Mark>,
) -> Mem<bool>
    requires { list_any (is_of gxid) locks.old.waits ≡ false }
    ensures has { IfOk result (λ has. has ≡ has_row gxid rid locks.old) }
    ensures locks { OnOk result (locks.new ≡ row_locks gxid rid locks.old) }
    ensures marks { OnOk result (marks.new.items ≡ marks.old.items ++ row_marks node gxid rid locks.old) }
{
    let tuple = tuple_lock(gxid, rid);
    if is_held(locks, &tuple)? {
        return Ok(true);
    }
    let granted = ask_for(node, locks, tuple, marks)?;
    Ok(granted)
}

// With the row's lock, which it takes where nothing is in its way there, the command waits for who has written the row, and else for the
// row's lock.
fn wait_at(
    node: Node,
    locks: &mut LockTable,
    gxid: Gxid,
    rid: Rid,
    writer: Gxid,
    marks: &mut Vec<Mark>,
) -> Mem<()>
    requires free { list_any (is_of gxid) locks.old.waits ≡ false }
    requires awaited { awaited_in locks.old.holds gxid (Some writer) ≡ Some writer }
    ensures locks { OnOk result (locks.new ≡ stop_locks gxid rid writer locks.old) }
    ensures marks { OnOk result (marks.new.items ≡ marks.old.items ++ stop_marks node gxid rid writer locks.old) }
{
    if ask_for_row(node, locks, gxid, rid, marks)? {
        wait_for(node, locks, end_lock(gxid, writer), marks)?;
    }
    Ok(())
}

// A row that is done gives its lock back, where the command holds it.
fn give_tuple_back(
    node: Node,
    locks: &mut LockTable,
    gxid: Gxid,
    rid: Rid,
    marks: &mut Vec<Mark>,
) -> Mem<()>
    ensures locks { OnOk result (locks.new ≡ left_locks gxid rid locks.old) }
    ensures marks { OnOk result (marks.new.items ≡ marks.old.items ++ left_marks node gxid rid locks.old) }
{
    let tuple = tuple_lock(gxid, rid);
    if is_held(locks, &tuple)? {
        give_back_one(node, locks, tuple, marks)?;
    }
    Ok(())
}

// THE ROW
// A row with a newest version is processed, or waited at.
fn come_to(
    alloc: Global,
    change: &Change,
    held: &mut Held,
    entry: &mut Entry,
    rid: Rid,
    newest: Newest,
    marks: &mut Vec<Mark>,
) -> Mem<RowEnd>
    ghost spot: { Spot }
    requires may { MayChange spot.stage.found.tables spot.stage.found.start change.now }
    requires at { IsAt spot.stage change.now.writer.gxid held.old entry.old marks.old.items }
    requires free { IsFree spot.stage change.now.writer.gxid }
    requires newest { newest ≡ newest_in held.old.store.horizon spot.version }
    requires current { current_of spot.stage.moved.seg change.now.writer.table rid ≡ Some spot.version }
    ensures came { IfOk result (λ end. Came spot.stage change.now.writer.gxid held.new entry.new marks.new.items
        (rule.at_current spot.stage.moved change.now.writer.gxid (change_in change.now) rid (Some spot.version)) end) }
    ensures written { IfOk result (λ end. Writes change.now rid held.old.store held.new.store end) }
{
    let Writer { node, gxid, .. } = change.writer;
    match awaited(&held.locks, gxid, newest.writer)? {
        Some(writer) => {
            drop(newest);
            wait_at(node, &mut held.locks, gxid, rid, writer, marks)?;
            Ok(RowEnd::Waiting)
        }
        None => process(alloc, change, held, entry, rid, newest, marks),
    }
}

// A row that was swept.
fn look_at(
    alloc: Global,
    change: &Change,
    held: &mut Held,
    entry: &mut Entry,
    rid: Rid,
    marks: &mut Vec<Mark>,
) -> Mem<RowEnd>
    ghost stage: { Stage }
    requires may { MayChange stage.found.tables stage.found.start change.now }
    requires at { IsAt stage change.now.writer.gxid held.old entry.old marks.old.items }
    requires free { IsFree stage change.now.writer.gxid }
    requires swept { IsSwept held.old.store change.now.writer.table rid }
    ensures came { IfOk result (λ end. Came stage change.now.writer.gxid held.new entry.new marks.new.items
        (rule.looked_at stage.moved change.now.writer.gxid (change_in change.now) rid) end) }
    ensures written { IfOk result (λ end. Writes change.now rid held.old.store held.new.store end) }
{
    match held.store.newest(change.writer.table, rid)? {
        Some(newest) => come_to(alloc, change, held, entry, rid, newest, marks),
        None => skip(change, rid, marks),
    }
}

// Once it is done with the row, the command gives its lock back.
fn leave_row(
    node: Node,
    locks: &mut LockTable,
    gxid: Gxid,
    rid: Rid,
    end: RowEnd,
    marks: &mut Vec<Mark>,
) -> Mem<()>
    ensures locks { OnOk result (locks.new ≡ locks_after (is_done_at (end_of end)) gxid rid locks.old) }
    ensures marks { OnOk result (marks.new.items ≡ marks.old.items ++ marks_after (is_done_at (end_of end)) node gxid rid locks.old) }
{
    match end {
        RowEnd::Written => give_tuple_back(node, locks, gxid, rid, marks),
        RowEnd::Skipped => give_tuple_back(node, locks, gxid, rid, marks),
        RowEnd::Waiting => Ok(()),
        RowEnd::Failing(_) => Ok(()),
    }
}

// A row is written or skipped, and gives its lock back; or the command waits or fails at it. Before that, versions of it that nobody is
// shown any more go.
pub(crate) fn does_row(
    alloc: Global,
    change: &Change,
    held: &mut Held,
    entry: &mut Entry,
    rid: Rid,
    marks: &mut Vec<Mark>,
) -> Mem<RowEnd>
    ghost stage: { Stage }
    requires may { MayChange stage.found.tables stage.found.start change.now }
    requires at { IsAt stage change.now.writer.gxid held.old entry.old marks.old.items }
    requires free { IsFree stage change.now.writer.gxid }
    ensures came { IfOk result (λ end. Came stage change.now.writer.gxid held.new entry.new marks.new.items
        (rule.does_row stage.moved change.now.writer.gxid (change_in change.now) rid) end) }
    ensures swept { IfOk result (λ end. LeavesSwept change.now rid held.old.store held.new.store end) }
{
    let Writer {
        node,
        gxid,
        table,
        ..
    } = change.writer;
    held.store.sweep(table, rid);
    let end = look_at(alloc, change, held, entry, rid, marks)?;
    leave_row(node, &mut held.locks, gxid, rid, end, marks)?;
    Ok(end)
}

pub(crate) fn is_done(end: RowEnd) -> bool
    ensures { result ≡ is_done_at (end_of end) }
{
    match end {
        RowEnd::Written | RowEnd::Skipped => true,
        RowEnd::Waiting | RowEnd::Failing(_) => false,
    }
}
