ghost use Rattle.std.specs.Prelude.{◌≡◌, ◌≤◌, ◌&&◌, ◌==◌, ◌↔◌, not, IfOk, IsTrue};
ghost use Rattle.gx_store.specs.Marks.{is_processed as was_processed};
ghost use Rattle.gx_store.specs.Writes.{IsWriteOf};
ghost use Rattle.gx_legal.specs.Changed.{is_changed as was_changed, is_gone as was_gone, is_set as was_set, is_set_to as was_set_to};
ghost use Rattle.gx_legal.specs.Inserted.{is_inserted as was_inserted};
ghost use Rattle.gx_legal.specs.Own.{IsOwn};
ghost use Rattle.gx_legal.specs.Writes.{is_next as may_be_next, is_write as may_write};

use crate::command::{Choice, Command, RowAt};
use crate::images::is_image;
use crate::inserts::is_inserted;
use crate::late_writes::is_written_at;
use crate::marks::{is_processed, node_of};
use crate::selecting::is_changeable;
use crate::setting::set_row;
use crate::skips::choice_of;
use crate::writing::free_write;
use gx_ids::{Mem, Rid, Seq, Table};
use gx_meaning::ArithFault;
use gx_script::Script;
use gx_store::Mark;
use gx_tree::{Assign, Expr, Row, Stmt};
use std::alloc::Global;

/// Whether the command's statement may write this image of the row behind these marks, of which its transaction's own are known.
pub fn is_write_of(
    alloc: Global,
    script: &Script,
    marks: &[Mark],
    own: &[Mark],
    command: Command,
    stmt: &Stmt,
    row: RowAt,
    image: &Option<Row>,
) -> Mem<bool>
    requires some { 1 ≤ script.now.segments }
    requires few { script.now.segments ≤ 16 }
    requires own { IsOwn command.gxid marks.now own.now }
    ensures { IfOk result (λ holds. IsTrue holds ↔ IsWriteOf script.now marks.now command.level command.gxid command.cid stmt.now row.node row.table row.rid image.now) }
{
    is_write(alloc, script, marks, own, command, stmt, row, image)
}

fn is_write(
    alloc: Global,
    script: &Script,
    marks: &[Mark],
    own: &[Mark],
    command: Command,
    stmt: &Stmt,
    row: RowAt,
    image: &Option<Row>,
) -> Mem<bool>
    requires some { 1 ≤ script.now.segments }
    requires few { script.now.segments ≤ 16 }
    requires own { IsOwn command.gxid marks.now own.now }
    ensures { IfOk result (λ holds. holds ≡ may_write script.now marks.now command.level command.gxid command.cid stmt.now row.node row.table row.rid image.now) }
{
    match stmt {
        Stmt::Insert(table, tuples) if *table == row.table => {
            is_own_inserted(
                alloc,
                script,
                marks,
                own,
                command,
                *table,
                tuples.as_slice(),
                row,
                image,
            )
        }
        Stmt::Update(table, assigns, cond) if is_next(marks, own, command, *table, row) => {
            let choice = choice_of(command, *table, cond.get(), row.rid);
            is_updated(alloc, marks, choice, assigns.get().as_slice(), image)
        }
        Stmt::Delete(table, cond) if is_next(marks, own, command, *table, row) => {
            let choice = choice_of(command, *table, cond.get(), row.rid);
            is_deleted(alloc, marks, choice, image)
        }
        _ => Ok(false),
    }
}

// An INSERT's row is told by its transaction's own marks.
fn is_own_inserted(
    alloc: Global,
    script: &Script,
    _marks: &[Mark],
    own: &[Mark],
    command: Command,
    table: Table,
    tuples: &[Seq<Expr>],
    row: RowAt,
    image: &Option<Row>,
) -> Mem<bool>
    requires some { 1 ≤ script.now.segments }
    requires few { script.now.segments ≤ 16 }
    requires own { IsOwn command.gxid _marks.now own.now }
    ensures { IfOk result (λ holds. holds ≡ was_inserted script.now _marks.now command.gxid command.cid table tuples.now row.node row.rid image.now) }
{
    is_inserted(alloc, script, own, command, table, tuples, row, image)
}

// Whether the command has written or skipped the row, by its transaction's own marks.
fn is_own_processed(_marks: &[Mark], own: &[Mark], command: Command, rid: Rid) -> bool
    requires { IsOwn command.gxid _marks.now own.now }
    ensures { result ≡ was_processed _marks.now command.gxid command.cid rid }
{
    is_processed(own, command.gxid, command.cid, rid)
}

// Whether the row stands there, and the command hasn't written or skipped it.
fn is_next(marks: &[Mark], own: &[Mark], command: Command, table: Table, row: RowAt) -> bool
    requires { IsOwn command.gxid marks.now own.now }
    ensures { result ≡ may_be_next marks.now command.gxid command.cid table row.node row.table row.rid }
{
    table == row.table
        && is_written_at(node_of(marks, row.rid), row.node)
        && !is_own_processed(marks, own, command, row.rid)
}

fn is_updated(
    alloc: Global,
    marks: &[Mark],
    choice: Choice<'_>,
    assigns: &[Assign],
    image: &Option<Row>,
) -> Mem<bool>
    ensures { IfOk result (λ holds. holds ≡ was_changed marks.now choice.entry.command.level choice.entry.command.gxid choice.entry.command.cid
        choice.entry.table choice.entry.cond.now choice.entry.rid (was_set assigns.now image.now)) }
{
    let Some(write) = free_write(marks, choice.command.gxid, choice.rid) else {
        return Ok(false);
    };
    match write.image {
        None => Ok(false),
        Some(old) => match is_set(alloc, assigns, image, old) {
            Ok(true) => is_changeable(alloc, marks, choice, write, old),
            other => other,
        },
    }
}

fn is_deleted(alloc: Global, marks: &[Mark], choice: Choice<'_>, image: &Option<Row>) -> Mem<bool>
    ensures { IfOk result (λ holds. holds ≡ was_changed marks.now choice.entry.command.level choice.entry.command.gxid choice.entry.command.cid
        choice.entry.table choice.entry.cond.now choice.entry.rid (was_gone image.now)) }
{
    let Some(write) = free_write(marks, choice.command.gxid, choice.rid) else {
        return Ok(false);
    };
    match write.image {
        None => Ok(false),
        Some(old) => {
            if image.is_some() {
                return Ok(false);
            }
            is_changeable(alloc, marks, choice, write, old)
        }
    }
}

// Whether the image is what the SET list gives.
fn is_set(alloc: Global, assigns: &[Assign], image: &Option<Row>, old: &Row) -> Mem<bool>
    ensures { IfOk result (λ holds. holds ≡ was_set assigns.now image.now old.now) }
{
    Ok(is_set_to(set_row(alloc, assigns, old.as_slice())?, image))
}

fn is_set_to(set: Result<Row, ArithFault>, image: &Option<Row>) -> bool
    ensures { result ≡ was_set_to set image.now }
{
    match set {
        Ok(new) => is_image(image, &new),
        Err(_) => false,
    }
}
