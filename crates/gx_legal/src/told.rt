ghost use Rattle.std.specs.Prelude.{◌≡◌, ◌↔◌, IfOk, IsTrue};
ghost use Rattle.gx_store.specs.Answers.{Tells};
ghost use Rattle.gx_legal.specs.Own.{IsOwn};
ghost use Rattle.gx_legal.specs.Told.{has_told as did_tell, tells_deleted as may_tell_deleted, tells_inserted as may_tell_inserted};
ghost use Rattle.gx_legal.specs.Told.{tells_locked as may_tell_locked, tells_rows as may_tell_rows, tells_updated as may_tell_updated};

use crate::changed::has_changed;
use crate::command::Command;
use crate::held::has_locked;
use crate::inserted::has_inserted;
use crate::shown::has_shown;
use gx_ids::{Mem, Seq, Table};
use gx_modes::Mode;
use gx_script::Script;
use gx_store::{Mark, StmtAnswer};
use gx_tree::{Cond, Expr, Query, Stmt};
use std::alloc::Global;

/// Whether the command has done behind these marks what its answer says.
pub fn tells(
    alloc: Global,
    script: &Script,
    marks: &[Mark],
    own: &[Mark],
    command: Command,
    stmt: &Stmt,
    answer: &StmtAnswer,
) -> Mem<bool>
    requires { IsOwn command.gxid marks.now own.now }
    ensures { IfOk result (λ holds. IsTrue holds ↔ Tells script.now marks.now command.level command.gxid command.cid stmt.now answer.now) }
{
    has_told(alloc, script, marks, own, command, stmt, answer)
}

fn has_told(
    alloc: Global,
    script: &Script,
    marks: &[Mark],
    own: &[Mark],
    command: Command,
    stmt: &Stmt,
    answer: &StmtAnswer,
) -> Mem<bool>
    requires { IsOwn command.gxid marks.now own.now }
    ensures { IfOk result (λ holds. holds ≡ did_tell script.now marks.now command.level command.gxid command.cid stmt.now answer.now) }
{
    match stmt {
        Stmt::Select(query) => tells_rows(alloc, marks, command, query.get(), answer),
        Stmt::Insert(_, tuples) => {
            tells_inserted(alloc, marks, own, command, tuples.as_slice(), answer)
        }
        Stmt::Update(table, _, cond) => tells_updated(
            alloc,
            marks,
            own,
            command,
            *table,
            cond.get(),
            answer,
        ),
        Stmt::Delete(table, cond) => tells_deleted(
            alloc,
            marks,
            own,
            command,
            *table,
            cond.get(),
            answer,
        ),
        Stmt::Lock(table, mode) => Ok(tells_locked(
            marks,
            script.segments,
            command,
            *table,
            *mode,
            answer,
        )),
        _ => Ok(false),
    }
}

fn tells_rows(
    alloc: Global,
    marks: &[Mark],
    command: Command,
    query: &Query,
    answer: &StmtAnswer,
) -> Mem<bool>
    ensures { IfOk result (λ holds. holds ≡ may_tell_rows marks.now command.level command.gxid command.cid query.now answer.now) }
{
    match answer {
        StmtAnswer::Rows(rows) => has_shown(alloc, marks, command, query, rows.as_slice()),
        _ => Ok(false),
    }
}

fn tells_inserted(
    alloc: Global,
    marks: &[Mark],
    own: &[Mark],
    command: Command,
    tuples: &[Seq<Expr>],
    answer: &StmtAnswer,
) -> Mem<bool>
    requires { IsOwn command.gxid marks.now own.now }
    ensures { IfOk result (λ holds. holds ≡ may_tell_inserted marks.now command.level command.gxid command.cid tuples.now answer.now) }
{
    match answer {
        StmtAnswer::Inserted(count) => has_inserted(alloc, marks, own, command, tuples, *count),
        _ => Ok(false),
    }
}

fn tells_updated(
    alloc: Global,
    marks: &[Mark],
    own: &[Mark],
    command: Command,
    table: Table,
    cond: &Option<Cond>,
    answer: &StmtAnswer,
) -> Mem<bool>
    requires { IsOwn command.gxid marks.now own.now }
    ensures { IfOk result (λ holds. holds ≡ may_tell_updated marks.now command.level command.gxid command.cid table cond.now answer.now) }
{
    match answer {
        StmtAnswer::Updated(count) => has_changed(alloc, marks, own, command, table, cond, *count),
        _ => Ok(false),
    }
}

fn tells_deleted(
    alloc: Global,
    marks: &[Mark],
    own: &[Mark],
    command: Command,
    table: Table,
    cond: &Option<Cond>,
    answer: &StmtAnswer,
) -> Mem<bool>
    requires { IsOwn command.gxid marks.now own.now }
    ensures { IfOk result (λ holds. holds ≡ may_tell_deleted marks.now command.level command.gxid command.cid table cond.now answer.now) }
{
    match answer {
        StmtAnswer::Deleted(count) => has_changed(alloc, marks, own, command, table, cond, *count),
        _ => Ok(false),
    }
}

fn tells_locked(
    marks: &[Mark],
    segments: u8,
    command: Command,
    table: Table,
    mode: Mode,
    answer: &StmtAnswer,
) -> bool
    ensures { result ≡ may_tell_locked marks.now segments command.gxid table mode answer.now }
{
    match answer {
        StmtAnswer::Locked => has_locked(marks, segments, command.gxid, table, mode),
        _ => false,
    }
}
