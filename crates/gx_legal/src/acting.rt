// Whether a command may do something by its statement.
ghost use Rattle.std.specs.Prelude.{◌≡◌, ◌↔◌, IfOk, IsTrue, true};
ghost use Rattle.gx_meaning.specs.declared.fault.ArithFault.{ArithFault as OneFault};
ghost use Rattle.gx_store.specs.Faults.{IsFaultOf, may_fault_late as can_fault_late};
ghost use Rattle.gx_store.specs.Language.{IsScript};
ghost use Rattle.gx_store.specs.Writes.{IsWriteOf, may_skip as can_skip};
ghost use Rattle.gx_store.specs.Commands.{has_own_snapshot as is_served};
ghost use Rattle.gx_legal.specs.Deeds.{May, doing_of};
ghost use Rattle.gx_legal.specs.Own.{IsOwn};

use crate::command::{Command, RowAt};
use crate::deed::{Act, Deed};
use crate::faults::is_fault_of;
use crate::late_writes::is_late_write_of;
use crate::lines::is_on_rows;
use crate::marks::has_own_snapshot;
use crate::skips::is_skip_of;
use crate::writes::is_write_of;
use gx_ids::{Mem, Rid};
use gx_meaning::ArithFault;
use gx_script::Script;
use gx_store::Mark;
use gx_tree::{Level, Row, Stmt};
use std::alloc::Global;

fn may_skip(stmt: &Stmt) -> bool
    ensures { result ≡ can_skip stmt.now }
{
    match stmt {
        Stmt::Update(_, _, _) | Stmt::Delete(_, _) => true,
        _ => false,
    }
}

fn may_fault_late(stmt: &Stmt) -> bool
    ensures { result ≡ can_fault_late stmt.now }
{
    match stmt {
        Stmt::Select(_) | Stmt::Update(_, _, _) | Stmt::Delete(_, _) => true,
        _ => false,
    }
}

// A command that has its snapshot may write the image.
fn may_write(
    alloc: Global,
    script: &Script,
    marks: &[Mark],
    own: &[Mark],
    command: Command,
    stmt: &Stmt,
    row: RowAt,
    image: &Option<Row>,
) -> Mem<bool>
    requires script { IsScript script.now }
    requires own { IsOwn command.gxid marks.now own.now }
    ensures { IfOk result (λ may. IsTrue may ↔ ((is_served command.level marks.now command.gxid command.cid ≡ true)
        × IsWriteOf script.now marks.now command.level command.gxid command.cid stmt.now row.node row.table row.rid image.now)) }
{
    if !has_own_snapshot(marks, command) {
        return Ok(false);
    }
    is_write_of(alloc, script, marks, own, command, stmt, row, image)
}

// Some fault of the command's is on this image of the row.
fn may_fault(
    alloc: Global,
    marks: &[Mark],
    command: Command,
    stmt: &Stmt,
    rid: Rid,
    image: &Option<Row>,
) -> Mem<bool>
    ensures { IfOk result (λ may. IsTrue may ↔ ((fault : OneFault) × IsFaultOf marks.now command.level command.gxid command.cid stmt.now rid image.now fault)) }
{
    let overflow = ArithFault::Overflow;
    match is_fault_of(alloc, marks, command, stmt, rid, image, overflow) {
        Ok(false) => is_fault_of(
            alloc,
            marks,
            command,
            stmt,
            rid,
            image,
            ArithFault::DivisionByZero,
        ),
        other => other,
    }
}

/// Whether the command of this statement, at this level, may do it.
pub fn may(alloc: Global, script: &Script, deed: &Deed<'_>, stmt: &Stmt, level: Level) -> Mem<bool>
    requires { IsScript script.now }
    ensures { IfOk result (λ may. IsTrue may ↔ May script.now (doing_of deed.now) stmt.now level) }
{
    let marks = deed.marks;
    let command = Command {
        level,
        gxid: deed.gxid,
        cid: deed.cid,
    };
    match deed.act {
        Act::Snap => Ok(is_on_rows(stmt) && !has_own_snapshot(marks, command)),
        Act::Write { row, image } => {
            may_write(alloc, script, marks, deed.own, command, stmt, row, image)
        }
        Act::Skip(rid) => is_skip_of(alloc, marks, command, stmt, rid),
        Act::Fault { rid, image } => may_fault(alloc, marks, command, stmt, rid, image),
        Act::LateWrite { row, image } => {
            is_late_write_of(alloc, script, marks, command, stmt, row, image)
        }
        Act::LateSkip => Ok(may_skip(stmt)),
        Act::LateFault => Ok(may_fault_late(stmt)),
    }
}
