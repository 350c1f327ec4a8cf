// The answers of lines.
ghost use Rattle.std.specs.Prelude.{◌≡◌, ◌++◌, ◌∷◌, [], IfOk, OnOk};
ghost use Rattle.gx_rules.specs.AtCoordinator.{answer_at_commit, answer_of_command, command_answer, refusal_of};
ghost use Rattle.gx_script.specs.declared.state.Pending.TheVariants as pending;
ghost use Rattle.gx_coord.specs.Books.{command_of, coord_of, stmt_at};
ghost use Rattle.gx_coord.specs.Turns.{AreFit, IsFit, told_by};

use crate::books::find_command;
use crate::coord::Coord;
use crate::work::Command;
use gx_gather::merge_parts;
use gx_ids::{Gxid, Mem, Seq, SessionId};
use gx_meaning::ArithFault;
use gx_script::Script;
use gx_script::state::Pending;
use gx_store::{Mark, Refused, StmtAnswer};
use gx_tree::{Part, Query, Stmt};
use std::alloc::Global;

pub(crate) fn push_answer(
    marks: &mut Vec<Mark>,
    session: SessionId,
    number: u32,
    answer: StmtAnswer,
) -> Mem<()>
    ensures { OnOk result (marks.new.items ≡ marks.old.items ++ Mark.Answer session number answer ∷ []) }
{
    marks.push(Mark::Answer {
        session,
        number,
        answer,
    })?;
    Ok(())
}

fn told_rows(alloc: Global, query: &Query, parts: &[Part]) -> Mem<StmtAnswer>
    requires { AreFit (Stmt.Select query.now) parts.now }
    ensures { IfOk result (λ told. told ≡ told_by (Stmt.Select query.now) 0 parts.now) }
{
    let rows = merge_parts(alloc, query, parts)?;
    Ok(StmtAnswer::Rows(Seq::from_vec(rows)))
}

fn told_of(alloc: Global, stmt: &Stmt, count: u128, parts: &[Part]) -> Mem<StmtAnswer>
    requires { AreFit stmt.now parts.now }
    ensures { IfOk result (λ told. told ≡ told_by stmt.now count parts.now) }
{
    match stmt {
        Stmt::Select(query) => told_rows(alloc, query.get(), parts),
        Stmt::Insert(_, _) => Ok(StmtAnswer::Inserted(count)),
        Stmt::Update(_, _, _) => Ok(StmtAnswer::Updated(count)),
        Stmt::Delete(_, _) => Ok(StmtAnswer::Deleted(count)),
        _ => Ok(StmtAnswer::Locked),
    }
}

fn told_at(alloc: Global, script: &Script, command: &Command) -> Mem<StmtAnswer>
    requires { AreFit (stmt_at script.now.lines command.now.line) command.now.parts }
    ensures { IfOk result (λ told. told ≡ told_by (stmt_at script.now.lines command.now.line) command.now.count command.now.parts) }
{
    match script.lines.as_slice().get(command.line) {
        Some(line) => told_of(alloc, &line.stmt, command.count, command.parts.as_slice()),
        None => Ok(StmtAnswer::Locked),
    }
}

// What the command of a transaction answers that every segment has done.
pub(crate) fn told_for(alloc: Global, script: &Script, coord: &Coord, gxid: Gxid) -> Mem<StmtAnswer>
    requires same { coord.now.script.value ≡ script.now }
    requires fits { IsFit ((coord_of coord.now).works gxid.0).command }
    ensures { IfOk result (λ told. told ≡ answer_of_command ((coord_of coord.now).works gxid.0).command) }
{
    match find_command(coord, gxid) {
        Some(command) => told_at(alloc, script, command),
        None => Ok(StmtAnswer::Commit),
    }
}

// What the line of a transaction that commits is answered.
pub(crate) fn told_at_commit(
    alloc: Global,
    script: &Script,
    coord: &Coord,
    gxid: Gxid,
    pending: Pending,
) -> Mem<StmtAnswer>
    requires same { coord.now.script.value ≡ script.now }
    requires fits { IsFit ((coord_of coord.now).works gxid.0).command }
    ensures { IfOk result (λ told. told ≡ answer_at_commit ((coord_of coord.now).works gxid.0) pending) }
{
    match pending {
        Pending::Command => told_for(alloc, script, coord, gxid),
        _ => Ok(StmtAnswer::Commit),
    }
}

pub(crate) fn refusal(fault: ArithFault) -> Refused
    ensures { result ≡ refusal_of fault }
{
    match fault {
        ArithFault::Overflow => Refused::Overflow,
        ArithFault::DivisionByZero => Refused::DivisionByZero,
    }
}
