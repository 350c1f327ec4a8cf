ghost use Rattle.std.specs.Prelude.{◌≡◌, ◌↔◌, IfOk, IsTrue};
ghost use Rattle.gx_store.specs.Refusals.{IsOvertakenRow};
ghost use Rattle.gx_legal.specs.Changed.{is_overtaken as was_overtaken};

use crate::command::{Choice, Command};
use crate::marks::is_committed;
use crate::selecting::is_unseen;
use crate::skips::choice_of;
use crate::writing::free_write;
use gx_ids::{Gxid, Mem, Rid, Table};
use gx_store::Mark;
use gx_tree::Cond;
use std::alloc::Global;

/// Whether the command has selected the row, whose current write is one of `writer`, which committed after the command's snapshot.
pub fn is_overtaken_row(
    alloc: Global,
    marks: &[Mark],
    command: Command,
    table: Table,
    cond: &Option<Cond>,
    rid: Rid,
    writer: Gxid,
) -> Mem<bool>
    ensures { IfOk result (λ holds. IsTrue holds ↔ IsOvertakenRow marks.now command.level command.gxid command.cid table cond.now rid writer) }
{
    let choice = choice_of(command, table, cond, rid);
    is_overtaken(alloc, marks, choice, writer)
}

fn is_overtaken(alloc: Global, marks: &[Mark], choice: Choice<'_>, writer: Gxid) -> Mem<bool>
    ensures { IfOk result (λ holds. holds ≡ was_overtaken marks.now choice.entry.command.level choice.entry.command.gxid choice.entry.command.cid
        choice.entry.table choice.entry.cond.now choice.entry.rid writer) }
{
    match free_write(marks, choice.command.gxid, choice.rid) {
        None => Ok(false),
        Some(write) => {
            if write.gxid != writer || !is_committed(marks, writer) {
                return Ok(false);
            }
            is_unseen(alloc, marks, choice, writer)
        }
    }
}
