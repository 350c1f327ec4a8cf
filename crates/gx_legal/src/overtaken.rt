// Whether a row that a command has selected was overtaken.
ghost use Rattle.std.specs.Prelude.{◌↔◌, IfOk, IsTrue};
ghost use Rattle.gx_store.specs.Refusals.{IsOvertaken};
ghost use Rattle.gx_legal.specs.Causes.{IsOvertakenThere};
ghost use Rattle.gx_legal.specs.Moments.{point_of};

use crate::command::Command;
use crate::firsts::first_failed;
use crate::moment::Moment;
use crate::noted::hears_cause;
use crate::overtaken_rows::is_overtaken_row;
use gx_ids::{Gxid, Mem, Rid, Table};
use gx_msg::Cause;
use gx_store::Event;
use gx_tree::{Cond, Level, Stmt};
use std::alloc::Global;

// A row of the table, by FAILED that the point's step receives, and when the segment first sent one of the command.
fn is_overtaken_there(
    alloc: Global,
    moment: &Moment<'_, '_>,
    command: Command,
    table: Table,
    cond: &Option<Cond>,
    row: (Rid, Gxid),
) -> Mem<bool>
    ensures { IfOk result (λ is. IsTrue is ↔ IsOvertakenThere (point_of moment.now) command.level command.gxid command.cid table cond.now row.0 row.1) }
{
    let Event::Receive { from, .. } = moment.event else {
        return Ok(false);
    };
    let reason = Cause::Serialization(row.0, row.1);
    if !hears_cause(moment, command.gxid, command.cid, reason, from) {
        return Ok(false);
    }
    let Some(first) = first_failed(moment, command.gxid, command.cid, from) else {
        return Ok(false);
    };
    let then = &moment.before[..first.start + first.mark];
    is_overtaken_row(alloc, then, command, table, cond, row.0, row.1)
}

/// Whether, at repeatable read, the row's current write is of this transaction, which committed after the command's snapshot.
pub fn is_overtaken(
    alloc: Global,
    moment: &Moment<'_, '_>,
    stmt: &Stmt,
    command: Command,
    row: (Rid, Gxid),
) -> Mem<bool>
    ensures { IfOk result (λ is. IsTrue is ↔ IsOvertaken (point_of moment.now) stmt.now command.level command.gxid command.cid row.0 row.1) }
{
    if command.level != Level::RepeatableRead {
        return Ok(false);
    }
    match stmt {
        Stmt::Update(table, _, cond) | Stmt::Delete(table, cond) => is_overtaken_there(
            alloc,
            moment,
            command,
            *table,
            cond.get(),
            row,
        ),
        _ => Ok(false),
    }
}
