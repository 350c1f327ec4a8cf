// Whether a command has selected a row, by some snapshot of its own, and whether it may change it.
ghost use Rattle.std.specs.Prelude.{◌≡◌, IfOk, take};
ghost use Rattle.std.specs.Option.{option_copied, option_map};
ghost use Rattle.gx_store.specs.Commands.{condition_on};
ghost use Rattle.gx_store.specs.Writes.{shown_write};
ghost use Rattle.gx_legal.specs.Selected.{image_at as seen_at, is_changeable as may_change, is_changeable_at as may_change_at, is_chosen as would_choose, is_chosen_at as has_chosen, is_current_at as stands, is_met as meets};
ghost use Rattle.gx_legal.specs.Selected.{is_missed as misses, is_selected as has_selected, is_unseen as was_unseen, is_unseen_at as was_unseen_at, is_write as is_that};
ghost use Rattle.gx_legal.specs.Written.{written_of};

use crate::command::Choice;
use crate::evaluation::truth;
use crate::marks::is_committed;
use crate::places::is_snapshot;
use crate::writing::{Writing, before, image, is_same_write, last_write};
use gx_ids::{Gxid, Mem};
use gx_meaning::ArithFault;
use gx_store::Mark;
use gx_tree::{Cond, Level, Row};
use std::alloc::Global;

/// What the condition says of a row; without one all rows are meant.
pub(crate) fn condition(
    alloc: Global,
    cond: &Option<Cond>,
    row: &Row,
) -> Mem<Result<bool, ArithFault>>
    ensures { IfOk result (λ outcome. outcome ≡ condition_on cond.now row.now) }
{
    match cond {
        Some(cond) => truth(alloc, cond, row.as_slice()),
        None => Ok(Ok(true)),
    }
}

pub(crate) fn is_met(outcome: Result<bool, ArithFault>) -> bool
    ensures { result ≡ meets outcome }
{
    match outcome {
        Ok(truth) => truth,
        Err(_) => false,
    }
}

pub(crate) fn is_missed(outcome: Result<bool, ArithFault>) -> bool
    ensures { result ≡ misses outcome }
{
    match outcome {
        Ok(truth) => !truth,
        Err(_) => false,
    }
}

fn is_chosen(alloc: Global, cond: &Option<Cond>, row: Option<&Row>) -> Mem<bool>
    ensures { IfOk result (λ holds. holds ≡ would_choose cond.now (option_copied row.entry)) }
{
    match row {
        None => Ok(false),
        Some(row) => condition(alloc, cond, row).map(is_met),
    }
}

fn is_chosen_at(alloc: Global, marks: &[Mark], choice: Choice<'_>, place: usize) -> Mem<bool>
    ensures { IfOk result (λ holds. holds ≡ has_chosen marks.now choice.entry.command.gxid choice.entry.command.cid
        choice.entry.table choice.entry.cond.now choice.entry.rid place) }
{
    is_chosen(alloc, choice.cond, image_at(marks, choice, place))
}

/// The row's image for the command, by a snapshot at the place.
pub(crate) fn image_at<'a>(marks: &'a [Mark], choice: Choice<'_>, place: usize) -> Option<&'a Row>
    ensures { option_copied result ≡ seen_at marks.now choice.entry.command.gxid choice.entry.command.cid choice.entry.table choice.entry.rid place }
{
    let reader = Some((choice.command.gxid, choice.command.cid));
    image(
        marks,
        before(marks, place),
        reader,
        choice.table,
        choice.rid,
    )
}

/// Whether the command has selected the row by one of its snapshots.
pub(crate) fn is_selected(alloc: Global, marks: &[Mark], choice: Choice<'_>) -> Mem<bool>
    ensures { IfOk result (λ holds. holds ≡ has_selected marks.now choice.entry.command.level choice.entry.command.gxid choice.entry.command.cid
        choice.entry.table choice.entry.cond.now choice.entry.rid) }
{
    for place in (0..marks.len()).rev() {
        if is_snapshot(&marks[place], choice.command)
            && is_chosen_at(alloc, marks, choice, place)?
        {
            return Ok(true);
        }
    }
    Ok(false)
}

/// Whether the command has selected the row by a snapshot by which it may change it from this current write and its image.
pub(crate) fn is_changeable(
    alloc: Global,
    marks: &[Mark],
    choice: Choice<'_>,
    write: Writing<'_>,
    old: &Row,
) -> Mem<bool>
    ensures { IfOk result (λ holds. holds ≡ may_change marks.now choice.entry.command.level choice.entry.command.gxid choice.entry.command.cid
        choice.entry.table choice.entry.cond.now choice.entry.rid (written_of write.entry) old.now) }
{
    for place in (0..marks.len()).rev() {
        if is_snapshot(&marks[place], choice.command)
            && is_changeable_at(alloc, marks, choice, write, old, place)?
        {
            return Ok(true);
        }
    }
    Ok(false)
}

fn is_changeable_at(
    alloc: Global,
    marks: &[Mark],
    choice: Choice<'_>,
    write: Writing<'_>,
    old: &Row,
    place: usize,
) -> Mem<bool>
    ensures { IfOk result (λ holds. holds ≡ may_change_at marks.now choice.entry.command.level choice.entry.command.gxid choice.entry.command.cid
        choice.entry.table choice.entry.cond.now choice.entry.rid (written_of write.entry) old.now place) }
{
    match is_chosen_at(alloc, marks, choice, place) {
        Ok(true) => is_current_at(alloc, marks, choice, write, old, place),
        other => other,
    }
}

fn is_current_at(
    alloc: Global,
    marks: &[Mark],
    choice: Choice<'_>,
    write: Writing<'_>,
    old: &Row,
    place: usize,
) -> Mem<bool>
    ensures { IfOk result (λ holds. holds ≡ stands marks.now choice.entry.command.level choice.entry.command.gxid choice.entry.command.cid
        choice.entry.cond.now choice.entry.rid (written_of write.entry) old.now place) }
{
    match choice.command.level {
        Level::ReadCommitted => condition(alloc, choice.cond, old).map(is_met),
        Level::RepeatableRead => Ok(is_shown_write(marks, choice, write, place)),
    }
}

// Whether the command is shown this very write, by the snapshot at the place.
fn is_shown_write(marks: &[Mark], choice: Choice<'_>, write: Writing<'_>, place: usize) -> bool
    ensures { result ≡ is_that (shown_write marks.now (take place marks.now) choice.entry.command.gxid choice.entry.command.cid choice.entry.rid) (written_of write.entry) }
{
    let reader = Some((choice.command.gxid, choice.command.cid));
    is_write(
        last_write(marks, before(marks, place), reader, choice.rid),
        write,
    )
}

fn is_write(shown: Option<Writing<'_>>, write: Writing<'_>) -> bool
    ensures { result ≡ is_that (option_map written_of shown.entry) (written_of write.entry) }
{
    match shown {
        None => false,
        Some(shown) => is_same_write(shown, write),
    }
}

/// Whether the command has selected the row by a snapshot that doesn't see that the transaction has committed.
pub(crate) fn is_unseen(
    alloc: Global,
    marks: &[Mark],
    choice: Choice<'_>,
    writer: Gxid,
) -> Mem<bool>
    ensures { IfOk result (λ holds. holds ≡ was_unseen marks.now choice.entry.command.level choice.entry.command.gxid choice.entry.command.cid
        choice.entry.table choice.entry.cond.now choice.entry.rid writer) }
{
    for place in (0..marks.len()).rev() {
        if is_snapshot(&marks[place], choice.command)
            && is_unseen_at(alloc, marks, choice, writer, place)?
        {
            return Ok(true);
        }
    }
    Ok(false)
}

fn is_unseen_at(
    alloc: Global,
    marks: &[Mark],
    choice: Choice<'_>,
    writer: Gxid,
    place: usize,
) -> Mem<bool>
    ensures { IfOk result (λ holds. holds ≡ was_unseen_at marks.now choice.entry.command.gxid choice.entry.command.cid
        choice.entry.table choice.entry.cond.now choice.entry.rid writer place) }
{
    match is_chosen_at(alloc, marks, choice, place) {
        Ok(true) => Ok(!is_committed(before(marks, place), writer)),
        other => other,
    }
}
