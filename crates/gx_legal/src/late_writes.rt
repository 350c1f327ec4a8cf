ghost use Rattle.std.specs.Prelude.{◌≡◌, ◌≤◌, ◌↔◌, IfOk, IsTrue};
ghost use Rattle.gx_store.specs.Writes.{IsLateWriteOf};
ghost use Rattle.gx_legal.specs.Late.{is_late as may_be_late, is_written_at as stands_at, is_written_in as stands_within, stands_in as may_stand_in};

use crate::command::{Command, RowAt};
use crate::inserts::is_inserted;
use crate::marks::{node_of, table_of};
use gx_ids::{Mem, Node, Table};
use gx_script::Script;
use gx_store::Mark;
use gx_tree::{Row, Stmt};
use std::alloc::Global;

// Whether a command of a transaction that has aborted may write this image of the row behind these marks.
pub(crate) fn is_late_write_of(
    alloc: Global,
    script: &Script,
    marks: &[Mark],
    command: Command,
    stmt: &Stmt,
    row: RowAt,
    image: &Option<Row>,
) -> Mem<bool>
    requires some { 1 ≤ script.now.segments }
    requires few { script.now.segments ≤ 16 }
    ensures { IfOk result (λ holds. IsTrue holds ↔ IsLateWriteOf script.now marks.now command.gxid command.cid stmt.now row.node row.table row.rid image.now) }
{
    is_late(alloc, script, marks, command, stmt, row, image)
}

fn is_late(
    alloc: Global,
    script: &Script,
    marks: &[Mark],
    command: Command,
    stmt: &Stmt,
    row: RowAt,
    image: &Option<Row>,
) -> Mem<bool>
    requires some { 1 ≤ script.now.segments }
    requires few { script.now.segments ≤ 16 }
    ensures { IfOk result (λ holds. holds ≡ may_be_late script.now marks.now command.gxid command.cid stmt.now row.node row.table row.rid image.now) }
{
    match stmt {
        Stmt::Insert(table, tuples) if *table == row.table => {
            is_inserted(
                alloc,
                script,
                marks,
                command,
                *table,
                tuples.as_slice(),
                row,
                image,
            )
        }
        Stmt::Update(table, _, _) | Stmt::Delete(table, _) => Ok(stands_in(marks, *table, row)),
        _ => Ok(false),
    }
}

// Whether the row stands there, in the statement's table.
fn stands_in(marks: &[Mark], table: Table, row: RowAt) -> bool
    ensures { result ≡ may_stand_in marks.now table row.node row.table row.rid }
{
    table == row.table
        && is_written_at(node_of(marks, row.rid), row.node)
        && is_written_in(table_of(marks, row.rid), table)
}

pub(crate) fn is_written_at(first: Option<Node>, node: Node) -> bool
    ensures { result ≡ stands_at first node }
{
    match first {
        None => false,
        Some(first) => first == node,
    }
}

fn is_written_in(first: Option<Table>, table: Table) -> bool
    ensures { result ≡ stands_within first table }
{
    match first {
        None => false,
        Some(first) => first == table,
    }
}
