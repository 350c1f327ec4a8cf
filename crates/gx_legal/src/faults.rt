ghost use Rattle.std.specs.Prelude.{◌≡◌, ◌↔◌, ◌||◌, IfOk, IsTrue};
ghost use Rattle.std.specs.Option.{option_copied};
ghost use Rattle.gx_store.specs.Faults.{IsFaultOf};
ghost use Rattle.gx_legal.specs.Changed.{is_changed as was_changed};
ghost use Rattle.gx_legal.specs.Faulted.{is_current_fault as may_be_current, is_fault as is_that_fault, is_image_fault as may_be_image, is_same_fault as same_faults};
ghost use Rattle.gx_legal.specs.Faulted.{is_seen_fault as may_be_seen, is_seen_fault_at as may_be_seen_at, is_set_fault as may_be_set, is_stmt_fault as may_be_fault};

use crate::command::{Choice, Command};
use crate::constants::is_constant_fault;
use crate::images::is_image;
use crate::places::is_snapshot;
use crate::selecting::{condition, image_at, is_changeable, is_selected};
use crate::setting::set_row;
use crate::skips::choice_of;
use crate::writing::free_write;
use gx_ids::{Mem, Rid};
use gx_meaning::ArithFault;
use gx_store::Mark;
use gx_tree::{Assign, Cond, Level, Row, Stmt};
use std::alloc::Global;

/// Whether an evaluation of the command's statement gives this fault on this image of the row behind these marks.
pub fn is_fault_of(
    alloc: Global,
    marks: &[Mark],
    command: Command,
    stmt: &Stmt,
    rid: Rid,
    image: &Option<Row>,
    fault: ArithFault,
) -> Mem<bool>
    ensures { IfOk result (λ holds. IsTrue holds ↔ IsFaultOf marks.now command.level command.gxid command.cid stmt.now rid image.now fault) }
{
    is_stmt_fault(alloc, marks, command, stmt, rid, image, fault)
}

fn is_stmt_fault(
    alloc: Global,
    marks: &[Mark],
    command: Command,
    stmt: &Stmt,
    rid: Rid,
    image: &Option<Row>,
    fault: ArithFault,
) -> Mem<bool>
    ensures { IfOk result (λ holds. holds ≡ may_be_fault marks.now command.level command.gxid command.cid stmt.now rid image.now fault) }
{
    match stmt {
        Stmt::Select(query) => {
            let query = query.get();
            let choice = choice_of(command, query.table, &query.cond, rid);
            is_seen_fault(alloc, marks, choice, image, fault)
        }
        Stmt::Insert(_, tuples) => {
            is_constant_fault(alloc, marks, command, tuples.as_slice(), rid, image, fault)
        }
        Stmt::Update(table, assigns, cond) => {
            let choice = Choice {
                command,
                table: *table,
                cond: cond.get(),
                rid,
            };
            is_update_fault(alloc, marks, choice, assigns.get().as_slice(), image, fault)
        }
        Stmt::Delete(table, cond) => {
            let choice = Choice {
                command,
                table: *table,
                cond: cond.get(),
                rid,
            };
            is_condition_fault(alloc, marks, choice, image, fault)
        }
        _ => Ok(false),
    }
}

fn is_update_fault(
    alloc: Global,
    marks: &[Mark],
    choice: Choice<'_>,
    assigns: &[Assign],
    image: &Option<Row>,
    fault: ArithFault,
) -> Mem<bool>
    ensures { IfOk result (λ holds. holds ≡ (may_be_seen marks.now choice.entry.command.level choice.entry.command.gxid choice.entry.command.cid
        choice.entry.table choice.entry.cond.now choice.entry.rid image.now fault
        || (may_be_current marks.now choice.entry.command.level choice.entry.command.gxid choice.entry.command.cid
        choice.entry.table choice.entry.cond.now choice.entry.rid image.now fault
        || was_changed marks.now choice.entry.command.level choice.entry.command.gxid choice.entry.command.cid
        choice.entry.table choice.entry.cond.now choice.entry.rid (may_be_set assigns.now image.now fault)))) }
{
    match is_condition_fault(alloc, marks, choice, image, fault) {
        Ok(false) => is_set_fault(alloc, marks, choice, assigns, image, fault),
        other => other,
    }
}

fn is_condition_fault(
    alloc: Global,
    marks: &[Mark],
    choice: Choice<'_>,
    image: &Option<Row>,
    fault: ArithFault,
) -> Mem<bool>
    ensures { IfOk result (λ holds. holds ≡ (may_be_seen marks.now choice.entry.command.level choice.entry.command.gxid choice.entry.command.cid
        choice.entry.table choice.entry.cond.now choice.entry.rid image.now fault
        || may_be_current marks.now choice.entry.command.level choice.entry.command.gxid choice.entry.command.cid
        choice.entry.table choice.entry.cond.now choice.entry.rid image.now fault)) }
{
    match is_seen_fault(alloc, marks, choice, image, fault) {
        Ok(false) => is_current_fault(alloc, marks, choice, image, fault),
        other => other,
    }
}

// Whether the condition faults on what the command sees of the row, by one of its snapshots.
fn is_seen_fault(
    alloc: Global,
    marks: &[Mark],
    choice: Choice<'_>,
    image: &Option<Row>,
    fault: ArithFault,
) -> Mem<bool>
    ensures { IfOk result (λ holds. holds ≡ may_be_seen marks.now choice.entry.command.level choice.entry.command.gxid choice.entry.command.cid
        choice.entry.table choice.entry.cond.now choice.entry.rid image.now fault) }
{
    for place in (0..marks.len()).rev() {
        if is_snapshot(&marks[place], choice.command)
            && is_fault_at(alloc, marks, choice, image, fault, place)?
        {
            return Ok(true);
        }
    }
    Ok(false)
}

fn is_fault_at(
    alloc: Global,
    marks: &[Mark],
    choice: Choice<'_>,
    image: &Option<Row>,
    fault: ArithFault,
    place: usize,
) -> Mem<bool>
    ensures { IfOk result (λ holds. holds ≡ may_be_seen_at marks.now choice.entry.command.gxid choice.entry.command.cid
        choice.entry.table choice.entry.cond.now choice.entry.rid image.now fault place) }
{
    is_image_fault(
        alloc,
        choice.cond,
        image,
        fault,
        image_at(marks, choice, place),
    )
}

fn is_image_fault(
    alloc: Global,
    cond: &Option<Cond>,
    image: &Option<Row>,
    fault: ArithFault,
    row: Option<&Row>,
) -> Mem<bool>
    ensures { IfOk result (λ holds. holds ≡ may_be_image cond.now image.now fault (option_copied row.entry)) }
{
    match row {
        None => Ok(false),
        Some(row) => Ok(
            is_image(image, row) && is_truth_fault(condition(alloc, cond, row)?, fault),
        ),
    }
}

fn is_truth_fault(truth: Result<bool, ArithFault>, fault: ArithFault) -> bool
    ensures { result ≡ is_that_fault truth fault }
{
    match truth {
        Ok(_) => false,
        Err(given) => is_same_fault(given, fault),
    }
}

pub(crate) fn is_row_fault(row: Result<Row, ArithFault>, fault: ArithFault) -> bool
    ensures { result ≡ is_that_fault row fault }
{
    match row {
        Ok(_row) => false,
        Err(given) => is_same_fault(given, fault),
    }
}

fn is_same_fault(a: ArithFault, b: ArithFault) -> bool
    ensures { result ≡ same_faults a b }
{
    match (a, b) {
        (ArithFault::Overflow, ArithFault::Overflow) => true,
        (ArithFault::DivisionByZero, ArithFault::DivisionByZero) => true,
        _ => false,
    }
}

// Whether, at read committed, the condition faults on the current image of a selected row.
fn is_current_fault(
    alloc: Global,
    marks: &[Mark],
    choice: Choice<'_>,
    image: &Option<Row>,
    fault: ArithFault,
) -> Mem<bool>
    ensures { IfOk result (λ holds. holds ≡ may_be_current marks.now choice.entry.command.level choice.entry.command.gxid choice.entry.command.cid
        choice.entry.table choice.entry.cond.now choice.entry.rid image.now fault) }
{
    if choice.command.level == Level::RepeatableRead {
        return Ok(false);
    }
    match free_write(marks, choice.command.gxid, choice.rid) {
        None => Ok(false),
        Some(write) => {
            match is_image_fault(alloc, choice.cond, image, fault, write.image.as_ref()) {
                Ok(true) => is_selected(alloc, marks, choice),
                other => other,
            }
        }
    }
}

// Whether the SET list faults on the current image of a row that would be written.
fn is_set_fault(
    alloc: Global,
    marks: &[Mark],
    choice: Choice<'_>,
    assigns: &[Assign],
    image: &Option<Row>,
    fault: ArithFault,
) -> Mem<bool>
    ensures { IfOk result (λ holds. holds ≡ was_changed marks.now choice.entry.command.level choice.entry.command.gxid choice.entry.command.cid
        choice.entry.table choice.entry.cond.now choice.entry.rid (may_be_set assigns.now image.now fault)) }
{
    let Some(write) = free_write(marks, choice.command.gxid, choice.rid) else {
        return Ok(false);
    };
    match write.image {
        None => Ok(false),
        Some(old) => match is_set_fault_on(alloc, assigns, image, fault, old) {
            Ok(true) => is_changeable(alloc, marks, choice, write, old),
            other => other,
        },
    }
}

fn is_set_fault_on(
    alloc: Global,
    assigns: &[Assign],
    image: &Option<Row>,
    fault: ArithFault,
    old: &Row,
) -> Mem<bool>
    ensures { IfOk result (λ holds. holds ≡ may_be_set assigns.now image.now fault old.now) }
{
    Ok(is_image(image, old) && is_row_fault(set_row(alloc, assigns, old.as_slice())?, fault))
}
