ghost use Rattle.std.specs.Prelude.{◌≡◌, ◌↔◌, ◌&&◌, not, IfOk, IsTrue};
ghost use Rattle.gx_store.specs.Marks.{is_processed as was_processed};
ghost use Rattle.gx_store.specs.Writes.{IsSkipOf};
ghost use Rattle.gx_legal.specs.Changed.{is_left as was_left, is_skip as may_skip, is_skipped as was_skipped};

use crate::command::{Choice, Command};
use crate::marks::is_processed;
use crate::selecting::{condition, is_missed, is_selected};
use crate::writing::free_write;
use gx_ids::{Mem, Rid, Table};
use gx_store::Mark;
use gx_tree::{Cond, Level, Row, Stmt};
use std::alloc::Global;

/// Whether the command's statement may leave the row as it is behind these marks.
pub fn is_skip_of(
    alloc: Global,
    marks: &[Mark],
    command: Command,
    stmt: &Stmt,
    rid: Rid,
) -> Mem<bool>
    ensures { IfOk result (λ holds. IsTrue holds ↔ IsSkipOf marks.now command.level command.gxid command.cid stmt.now rid) }
{
    is_skip(alloc, marks, command, stmt, rid)
}

fn is_skip(alloc: Global, marks: &[Mark], command: Command, stmt: &Stmt, rid: Rid) -> Mem<bool>
    ensures { IfOk result (λ holds. holds ≡ may_skip marks.now command.level command.gxid command.cid stmt.now rid) }
{
    match stmt {
        Stmt::Update(table, _, cond) | Stmt::Delete(table, cond) => is_first_skip(
            alloc,
            marks,
            command,
            *table,
            cond.get(),
            rid,
        ),
        _ => Ok(false),
    }
}

pub(crate) fn choice_of(command: Command, table: Table, cond: &Option<Cond>, rid: Rid) -> Choice<'_>
    ensures command { result.command ≡ command }
    ensures table { result.table ≡ table }
    ensures cond { result.cond.now ≡ cond.now }
    ensures rid { result.rid ≡ rid }
{
    Choice {
        command,
        table,
        cond,
        rid,
    }
}

fn is_first_skip(
    alloc: Global,
    marks: &[Mark],
    command: Command,
    table: Table,
    cond: &Option<Cond>,
    rid: Rid,
) -> Mem<bool>
    ensures { IfOk result (λ holds. holds ≡ (not (was_processed marks.now command.gxid command.cid rid)
        && was_skipped marks.now command.level command.gxid command.cid table cond.now rid)) }
{
    if is_processed(marks, command.gxid, command.cid, rid) {
        return Ok(false);
    }
    let choice = Choice {
        command,
        table,
        cond,
        rid,
    };
    is_skipped(alloc, marks, choice)
}

fn is_skipped(alloc: Global, marks: &[Mark], choice: Choice<'_>) -> Mem<bool>
    ensures { IfOk result (λ holds. holds ≡ was_skipped marks.now choice.entry.command.level choice.entry.command.gxid choice.entry.command.cid
        choice.entry.table choice.entry.cond.now choice.entry.rid) }
{
    if choice.command.level == Level::RepeatableRead {
        return Ok(false);
    }
    match free_write(marks, choice.command.gxid, choice.rid) {
        None => Ok(false),
        Some(write) => match is_left(alloc, choice.cond, write.image) {
            Ok(true) => is_selected(alloc, marks, choice),
            other => other,
        },
    }
}

// Whether the row is gone, or the condition false on its current image.
fn is_left(alloc: Global, cond: &Option<Cond>, image: &Option<Row>) -> Mem<bool>
    ensures { IfOk result (λ holds. holds ≡ was_left cond.now image.now) }
{
    match image {
        None => Ok(true),
        Some(old) => condition(alloc, cond, old).map(is_missed),
    }
}
