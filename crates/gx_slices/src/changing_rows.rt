// A command that changes rows: it selects them, and then goes through them one behind the other, until it is done, waits or fails.
ghost use Rattle.std.specs.Prelude.{◌≡◌, ◌+◌, ◌<◌, ◌^◌, ◌∷◌, [], true, false, drop, length, map, IfOk, None, Some};
ghost use Rattle.gx_msg.specs.declared.reply.Reply.TheVariants.{Done, Failed};
ghost use Rattle.gx_node.specs.Phases.{phase_of};
ghost use Rattle.gx_rules.specs.Changes as rule;
ghost use Rattle.gx_tree.specs.declared.part.Part.TheVariants as part;
ghost use Rattle.gx_rules.specs.Segments.{local_of};
ghost use Rattle.gx_rules.specs.Slices as slices;
ghost use Rattle.gx_rules.specs.Fits.{is_waiting};
ghost use Rattle.gx_slices.specs.Agrees.{IsHeld};
ghost use Rattle.gx_slices.specs.Changing.{Came, Ending, Found, HasGone, IsAnswered, IsAt, IsFree, IsTaken, MayChange, Stage, change_in, ended_at, rid_at, written_at};
ghost use Rattle.gx_slices.specs.Picked.{IsPicked};
ghost use Rattle.gx_slices.specs.Ran.{HasProgressed};
ghost use Rattle.gx_slices.specs.Waiting.{is_open};

use crate::answering::{has_written, keep_answer};
use crate::change::{Change, slice_of};
use crate::changing::Writer;
use crate::changing_row::{RowEnd, does_row, is_done};
use crate::entries::take_entry;
use crate::held::{Entry, Held};
use crate::picking::{Picked, pick};
use crate::progress::Progress;
use crate::running::Ran;
use crate::selecting::faulted;
use crate::store::LocalStore;
use crate::suspending::put_suspended;
use gx_ids::{Mem, Rid, Seq, Shared, copies};
use gx_meaning::ArithFault;
use gx_msg::{Cause, Reply};
use gx_node::Suspended;
use gx_store::Mark;
use gx_tree::KeyedRow;
use std::alloc::Global;

/// How a command stands behind its rows: it is done with them, with so many written; or it waits at one, with those left; or it
/// fails.
#[derive(Drop)]
pub(crate) enum RowsEnd {
    Done(u64),
    Waiting(Rid, Seq<Rid>, u64),
    Failing(Cause),
}

// The rows behind one.
fn rows_behind(alloc: Global, rids: &[Rid], index: usize) -> Mem<Seq<Rid>>
    requires { index < length rids.now }
    ensures { IfOk result (λ rows. rows ≡ drop (index + 1) rids.now) }
{
    Ok(Seq::from_vec(copies(alloc, &rids[index + 1..])?))
}

fn row_at(rids: &[Rid], index: usize) -> Rid
    requires { index < length rids.now }
    ensures { result ≡ rid_at rids.now index }
{
    rids[index]
}

// One of the rows.
fn does_row_at(
    alloc: Global,
    change: &Change,
    held: &mut Held,
    entry: &mut Entry,
    rids: &[Rid],
    index: usize,
    marks: &mut Vec<Mark>,
) -> Mem<RowEnd>
    ghost stage: { Stage }
    requires may { MayChange stage.found.tables stage.found.start change.now }
    requires at { IsAt stage change.now.writer.gxid held.old entry.old marks.old.items }
    requires free { IsFree stage change.now.writer.gxid }
    requires inside { index < length rids.now }
    ensures { IfOk result (λ end. Came stage change.now.writer.gxid held.new entry.new marks.new.items
        (rule.does_row stage.moved change.now.writer.gxid (change_in change.now) (rid_at rids.now index)) end) }
{
    does_row(alloc, change, held, entry, row_at(rids, index), marks)
}

fn counted(count: u64, end: RowEnd) -> u64
    requires { count + 1 < 2 ^ 64 }
    ensures { result ≡ count + written_at end }
{
    match end {
        RowEnd::Written => count + 1,
        RowEnd::Skipped | RowEnd::Waiting | RowEnd::Failing(_) => count,
    }
}

// At a row that isn't done the command stops.
fn end_at(alloc: Global, rids: &[Rid], index: usize, count: u64, end: RowEnd) -> Mem<RowsEnd>
    requires { index < length rids.now }
    ensures { IfOk result (λ last. last ≡ ended_at rids.now index count end) }
{
    match end {
        RowEnd::Waiting => {
            let rows = rows_behind(alloc, rids, index)?;
            Ok(RowsEnd::Waiting(row_at(rids, index), rows, count))
        }
        RowEnd::Failing(cause) => Ok(RowsEnd::Failing(cause)),
        RowEnd::Written | RowEnd::Skipped => Ok(RowsEnd::Done(count)),
    }
}

// Goes through rows, with so many written before.
fn go_through(
    alloc: Global,
    change: &Change,
    held: &mut Held,
    entry: &mut Entry,
    rids: &[Rid],
    before: u64,
    marks: &mut Vec<Mark>,
) -> Mem<RowsEnd>
    ghost stage: { Stage }
    requires may { MayChange stage.found.tables stage.found.start change.now }
    requires at { IsAt stage change.now.writer.gxid held.old entry.old marks.old.items }
    requires free { IsFree stage change.now.writer.gxid }
    requires room { before + length rids.now < 2 ^ 64 }
    ensures { IfOk result (λ end. HasGone stage (change_in change.now) change.now.writer.gxid held.new entry.new marks.new.items
        (rule.goes_through change.now.writer.gxid (change_in change.now) rids.now stage.moved before) end) }
{
    let mut count = before;
    for index in 0..rids.len() {
        let end = does_row_at(alloc, change, held, entry, rids, index, marks)?;
        if is_done(end) {
            count = counted(count, end);
        } else {
            return end_at(alloc, rids, index, count, end);
        }
    }
    Ok(RowsEnd::Done(count))
}

// ITS END
// It answers.
fn answer(
    alloc: Global,
    held: &mut Held,
    change: &Change,
    entry: Entry,
    reply: Reply,
    marks: Vec<Mark>,
) -> Mem<Progress>
    ghost ending: { Ending }
    requires taken { IsTaken ending.stage change.now.writer.gxid }
    requires may { MayChange ending.stage.found.tables ending.stage.found.start change.now }
    requires answered { IsAnswered ending.stage (change_in change.now) change.now.writer.gxid held.old entry marks.items ending.turn reply }
    ensures { IfOk result (λ progress. HasProgressed ending.stage.found.tables held.new change.now.writer.gxid progress ending.turn) }
{
    let Writer { gxid, cid, .. } = change.writer;
    match keep_answer(alloc, held, gxid, cid, entry, &reply) {
        Ok(()) => Ok(Progress {
            marks: Seq::from_vec(marks),
            reply: Some(reply),
        }),
        Err(error) => {
            drop(reply);
            drop(marks);
            Err(error)
        }
    }
}

// It is suspended at a row.
fn stop(
    alloc: Global,
    held: &mut Held,
    change: Change,
    entry: Entry,
    row: Rid,
    rows: Seq<Rid>,
    count: u64,
    marks: Vec<Mark>,
) -> Mem<Progress>
    ghost ending: { Ending }
    requires taken { IsTaken ending.stage change.writer.gxid }
    requires may { MayChange ending.stage.found.tables ending.stage.found.start change }
    requires gone { HasGone ending.stage (change_in change) change.writer.gxid held.old entry marks.items ending.turn (RowsEnd.Waiting row rows count) }
    ensures { IfOk result (λ progress. HasProgressed ending.stage.found.tables held.new change.writer.gxid progress ending.turn) }
{
    let Change {
        writer,
        level,
        snapshot,
        set,
        cond,
    } = change;
    let waiting = Suspended {
        cid: writer.cid,
        level,
        snapshot: Some(snapshot),
        slice: slice_of(writer, set, cond),
        count,
        row: Some(row),
        rows,
    };
    put_suspended(alloc, held, writer.gxid, entry, waiting)?;
    Ok(Progress {
        marks: Seq::from_vec(marks),
        reply: None,
    })
}

fn done(store: &LocalStore, change: &Change, entry: &Entry, count: u64) -> Mem<Reply>
    ensures { IfOk result (λ reply. reply ≡ Done change.now.writer.cid (slices.has_written (phase_of entry.now.local.phase)) count (part.Rows [])) }
{
    Ok(Reply::Done {
        cid: change.writer.cid,
        wrote: has_written(entry.local.phase),
        count,
        part: store.no_rows()?,
    })
}

fn failed(alloc: Global, change: &Change, cause: Cause) -> Mem<Reply>
    ensures { IfOk result (λ reply. reply ≡ Failed change.now.writer.cid cause) }
{
    Ok(Reply::Failed {
        cid: change.writer.cid,
        cause: Shared::new(alloc, cause)?,
    })
}

// It has gone through all of them.
fn finish(
    alloc: Global,
    held: &mut Held,
    change: &Change,
    entry: Entry,
    count: u64,
    marks: Vec<Mark>,
) -> Mem<Progress>
    ghost ending: { Ending }
    requires taken { IsTaken ending.stage change.now.writer.gxid }
    requires may { MayChange ending.stage.found.tables ending.stage.found.start change.now }
    requires gone { HasGone ending.stage (change_in change.now) change.now.writer.gxid held.old entry marks.items ending.turn (RowsEnd.Done count) }
    ensures { IfOk result (λ progress. HasProgressed ending.stage.found.tables held.new change.now.writer.gxid progress ending.turn) }
{
    match done(&held.store, change, &entry, count) {
        Ok(reply) => answer(alloc, held, change, entry, reply, marks),
        Err(error) => {
            drop(entry);
            drop(marks);
            Err(error)
        }
    }
}

// It has failed at one.
fn give_up(
    alloc: Global,
    held: &mut Held,
    change: &Change,
    entry: Entry,
    cause: Cause,
    marks: Vec<Mark>,
) -> Mem<Progress>
    ghost ending: { Ending }
    requires taken { IsTaken ending.stage change.now.writer.gxid }
    requires may { MayChange ending.stage.found.tables ending.stage.found.start change.now }
    requires gone { HasGone ending.stage (change_in change.now) change.now.writer.gxid held.old entry marks.items ending.turn (RowsEnd.Failing cause) }
    ensures { IfOk result (λ progress. HasProgressed ending.stage.found.tables held.new change.now.writer.gxid progress ending.turn) }
{
    match failed(alloc, change, cause) {
        Ok(reply) => answer(alloc, held, change, entry, reply, marks),
        Err(error) => {
            drop(entry);
            drop(marks);
            Err(error)
        }
    }
}

fn close(
    alloc: Global,
    held: &mut Held,
    change: Change,
    entry: Entry,
    end: RowsEnd,
    marks: Vec<Mark>,
) -> Mem<Progress>
    ghost ending: { Ending }
    requires taken { IsTaken ending.stage change.writer.gxid }
    requires may { MayChange ending.stage.found.tables ending.stage.found.start change }
    requires gone { HasGone ending.stage (change_in change) change.writer.gxid held.old entry marks.items ending.turn end }
    ensures { IfOk result (λ progress. HasProgressed ending.stage.found.tables held.new change.writer.gxid progress ending.turn) }
{
    match end {
        RowsEnd::Done(count) => {
            let progress = finish(alloc, held, &change, entry, count, marks);
            drop(change);
            progress
        }
        RowsEnd::Waiting(row, rows, count) => {
            stop(alloc, held, change, entry, row, rows, count, marks)
        }
        RowsEnd::Failing(cause) => {
            let progress = give_up(alloc, held, &change, entry, cause, marks);
            drop(change);
            progress
        }
    }
}

// THE COMMAND
// From a row on, which is the first or the one at which it has waited.
fn go_from(
    alloc: Global,
    held: &mut Held,
    change: Change,
    mut entry: Entry,
    rids: &[Rid],
    count: u64,
    mut marks: Vec<Mark>,
) -> Mem<Progress>
    ghost ending: { Ending }
    requires taken { IsTaken ending.stage change.writer.gxid }
    requires may { MayChange ending.stage.found.tables ending.stage.found.start change }
    requires at { IsAt ending.stage change.writer.gxid held.old entry marks.items }
    requires free { IsFree ending.stage change.writer.gxid }
    requires room { count + length rids.now < 2 ^ 64 }
    requires turn { ending.turn ≡ rule.goes_through change.writer.gxid (change_in change) rids.now ending.stage.moved count }
    ensures { IfOk result (λ progress. HasProgressed ending.stage.found.tables held.new change.writer.gxid progress ending.turn) }
{
    match go_through(alloc, &change, held, &mut entry, rids, count, &mut marks) {
        Ok(end) => close(alloc, held, change, entry, end, marks),
        Err(error) => {
            drop(change);
            drop(entry);
            drop(marks);
            Err(error)
        }
    }
}

fn rids_of(alloc: Global, rows: &[KeyedRow]) -> Mem<Vec<Rid>>
    ensures { IfOk result (λ rids. rids.items ≡ map (λ row. row.rid) rows.now) }
{
    let rids: Vec<Rid> = rows.iter().map(|row| row.rid).collect(alloc)?;
    Ok(rids)
}

// It goes through the rows on which its condition is true.
fn change_kept(
    alloc: Global,
    held: &mut Held,
    change: Change,
    entry: Entry,
    kept: Vec<KeyedRow>,
) -> Mem<Progress>
    ghost stage: { Stage }
    requires taken { IsTaken stage change.writer.gxid }
    requires may { MayChange stage.found.tables stage.found.start change }
    requires at { IsAt stage change.writer.gxid held.old entry [] }
    requires free { IsFree stage change.writer.gxid }
    requires start { stage.moved ≡ slices.starts_from stage.found.start }
    requires kept { map (λ row. row.rid) kept.items ≡ rule.selected change.cond (rule.shown_to stage.found.start change.writer.gxid (change_in change)) }
    ensures { IfOk result (λ progress. HasProgressed stage.found.tables held.new change.writer.gxid progress
        (rule.unless_fault stage.found.start change.writer.gxid (change_in change) (rule.shown_to stage.found.start change.writer.gxid (change_in change)) None)) }
{
    let selected = kept.as_slice();
    match rids_of(alloc, selected) {
        Ok(rids) => {
            let list = rids.as_slice();
            let marks = Vec::new(alloc);
            go_from(alloc, held, change, entry, list, 0, marks)
        }
        Err(error) => {
            drop(change);
            drop(entry);
            Err(error)
        }
    }
}

// It fails on a row on which its condition faults.
fn fail_on(
    alloc: Global,
    held: &mut Held,
    change: Change,
    entry: Entry,
    row: KeyedRow,
    fault: ArithFault,
) -> Mem<Progress>
    ghost stage: { Stage }
    requires taken { IsTaken stage change.writer.gxid }
    requires may { MayChange stage.found.tables stage.found.start change }
    requires at { IsAt stage change.writer.gxid held.old entry [] }
    requires free { IsFree stage change.writer.gxid }
    requires start { stage.moved ≡ slices.starts_from stage.found.start }
    ensures { IfOk result (λ progress. HasProgressed stage.found.tables held.new change.writer.gxid progress
        (slices.fails_on stage.found.start change.writer.gxid change.writer.cid (row, fault))) }
{
    let Writer { gxid, cid, .. } = change.writer;
    match faulted(alloc, gxid, cid, row, fault) {
        Ok(ran) => {
            let Ran { marks, reply } = ran;
            let progress = answer(alloc, held, &change, entry, reply, marks.into_vec());
            drop(change);
            progress
        }
        Err(error) => {
            drop(change);
            drop(entry);
            Err(error)
        }
    }
}

// By what its condition says of all rows that are shown.
fn change_picked(
    alloc: Global,
    held: &mut Held,
    change: Change,
    entry: Entry,
    picked: Picked,
) -> Mem<Progress>
    ghost stage: { Stage }
    requires taken { IsTaken stage change.writer.gxid }
    requires may { MayChange stage.found.tables stage.found.start change }
    requires at { IsAt stage change.writer.gxid held.old entry [] }
    requires free { IsFree stage change.writer.gxid }
    requires start { stage.moved ≡ slices.starts_from stage.found.start }
    requires picked { IsPicked change.cond (rule.shown_to stage.found.start change.writer.gxid (change_in change)) picked }
    ensures { IfOk result (λ progress. HasProgressed stage.found.tables held.new change.writer.gxid progress
        (rule.changes_rows stage.found.start change.writer.gxid (Some (change_in change)))) }
{
    match picked {
        Picked::Rows(kept) => change_kept(alloc, held, change, entry, kept),
        Picked::Fault(row, fault) => fail_on(alloc, held, change, entry, row, fault),
    }
}

// The rows that the command selects, or the first on which its condition faults.
fn pick_shown(alloc: Global, held: &Held, change: &Change) -> Mem<Picked>
    ghost found: { Found }
    requires held { IsHeld found.tables held.now found.start }
    requires may { MayChange found.tables found.start change.now }
    requires open_here { is_open (local_of found.start change.now.writer.gxid).phase ≡ true }
    ensures { IfOk result (IsPicked change.now.cond (rule.shown_to found.start change.now.writer.gxid (change_in change.now))) }
{
    let Writer {
        gxid,
        cid,
        table,
        ..
    } = change.writer;
    let cond = change.cond.get();
    let rows = held
        .store
        .shown_rows_for(table, cond, &change.snapshot, Some(gxid), cid)?;
    let picked = pick(alloc, cond, rows)?;
    Ok(picked)
}

// The condition is tested on each row that is looked at, before any is changed.
pub(crate) fn change_rows(alloc: Global, held: &mut Held, change: Change) -> Mem<Progress>
    ghost found: { Found }
    requires was { held.old ≡ found.was }
    requires held { IsHeld found.tables held.old found.start }
    requires may { MayChange found.tables found.start change }
    requires open_here { is_open (local_of found.start change.writer.gxid).phase ≡ true }
    requires free { is_waiting (local_of found.start change.writer.gxid) ≡ false }
    ensures { IfOk result (λ progress. HasProgressed found.tables held.new change.writer.gxid progress
        (rule.changes_rows found.start change.writer.gxid (Some (change_in change)))) }
{
    let picked = pick_shown(alloc, held, &change)?;
    let entry = take_entry(alloc, &mut held.entries, change.writer.gxid);
    change_picked(alloc, held, change, entry, picked)
}

fn rids_from(alloc: Global, row: Rid, rows: &[Rid]) -> Mem<Vec<Rid>>
    ensures { IfOk result (λ rids. rids.items ≡ row ∷ rows.now) }
{
    let mut rids = Vec::new(alloc);
    rids.push(row)?;
    rids.extend_from_slice(rows)?;
    Ok(rids)
}

// The row at which it has waited is looked at again, and then the rows left.
pub(crate) fn go_on_at(
    alloc: Global,
    held: &mut Held,
    change: Change,
    row: Rid,
    rows: Seq<Rid>,
    count: u64,
    marks: Vec<Mark>,
) -> Mem<Progress>
    ghost found: { Found }
    requires was { held.old ≡ found.was }
    requires held { IsHeld found.tables held.old found.start }
    requires may { MayChange found.tables found.start change }
    requires open_here { is_open (local_of found.start change.writer.gxid).phase ≡ true }
    requires free { is_waiting (local_of found.start change.writer.gxid) ≡ false }
    requires room { count + length rows + 1 < 2 ^ 64 }
    ensures { IfOk result (λ progress. HasProgressed found.tables held.new change.writer.gxid progress
        (rule.goes_through change.writer.gxid (change_in change) (row ∷ rows) (record { seg = found.start; marks = marks.items }) count)) }
{
    let left = rows.as_slice();
    match rids_from(alloc, row, left) {
        Ok(rids) => {
            drop(rows);
            let entry = take_entry(alloc, &mut held.entries, change.writer.gxid);
            let list = rids.as_slice();
            go_from(alloc, held, change, entry, list, count, marks)
        }
        Err(error) => {
            drop(change);
            drop(rows);
            drop(marks);
            Err(error)
        }
    }
}
