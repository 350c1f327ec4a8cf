// Whether a line may be refused, and whether its cause stands as a segment has noted it.
ghost use Rattle.std.specs.Prelude.{◌≡◌, ◌↔◌, IfOk, IsTrue};
ghost use Rattle.gx_store.specs.Commands.{state_at};
ghost use Rattle.gx_store.specs.Language.{IsScript};
ghost use Rattle.gx_store.specs.Parts.{HasCause, IsLegalRefused, IsLineCaused, IsReason, IsRefused, IsRefusedFor};
ghost use Rattle.gx_store.specs.Refusals.{IsCause, is_journal as is_of_journal, may_refuse as can_refuse};
ghost use Rattle.gx_legal.specs.Answers.{MeetsAs};
ghost use Rattle.gx_legal.specs.Causes.{IsAbortedFor, IsCauseBy};
ghost use Rattle.gx_legal.specs.Moments.{point_of};
ghost use Rattle.gx_legal.specs.Standings.{HasNumber, state_in};

use crate::command::Command;
use crate::faulted::has_faulted;
use crate::journals::has_journal_failed;
use crate::judgement::{Judgement, judge_refusal};
use crate::lines::{is_command, level_in, line_under_way, number_in, transaction_at};
use crate::marks::is_aborted;
use crate::moment::Moment;
use crate::named::is_named;
use crate::overtaken::is_overtaken;
use crate::seats::standing_at;
use crate::standing::Block;
use gx_ids::{Mem, SessionId};
use gx_meaning::ArithFault;
use gx_msg::Cause;
use gx_store::Refused;
use gx_tree::Stmt;
use std::alloc::Global;

fn is_journal(reason: Refused) -> bool
    ensures { result ≡ is_of_journal reason }
{
    match reason {
        Refused::JournalFault(_) => true,
        _ => false,
    }
}

fn may_refuse(block: Block, stmt: &Stmt, reason: Refused) -> bool
    ensures { result ≡ can_refuse (state_in block) stmt.now reason }
{
    match (block, stmt) {
        (Block::Inside { .. }, Stmt::Commit) => is_journal(reason),
        (Block::Inside { .. }, _) => is_command(block, stmt) && !is_journal(reason),
        _ => is_command(block, stmt),
    }
}

fn is_cause(
    alloc: Global,
    moment: &Moment<'_, '_>,
    stmt: &Stmt,
    command: Command,
    reason: Refused,
    noted: bool,
) -> Mem<bool>
    ensures { IfOk result (λ is. IsTrue is ↔ IsCauseBy noted (point_of moment.now) stmt.now command.level command.gxid command.cid reason) }
{
    match reason {
        Refused::Serialization(rid, writer) => is_overtaken(
            alloc,
            moment,
            stmt,
            command,
            (rid, writer),
        ),
        Refused::Victim(round) => Ok(is_named(moment.earlier, round, command.gxid)),
        Refused::Overflow => has_faulted(
            alloc,
            moment,
            stmt,
            command,
            (ArithFault::Overflow, Cause::Overflow, noted),
        ),
        Refused::DivisionByZero => has_faulted(
            alloc,
            moment,
            stmt,
            command,
            (ArithFault::DivisionByZero, Cause::DivisionByZero, noted),
        ),
        Refused::JournalFault(node) => Ok(has_journal_failed(moment, command.gxid, node)),
        Refused::InFailedBlock | Refused::NotInBlock | Refused::Restarted(_) => Ok(false),
    }
}

fn is_reason(
    alloc: Global,
    moment: &Moment<'_, '_>,
    stmt: &Stmt,
    command: Command,
    reason: Refused,
) -> Mem<bool>
    ensures { IfOk result (λ is. IsTrue is ↔ IsReason (point_of moment.now) stmt.now command.level command.gxid command.cid reason) }
{
    is_cause(alloc, moment, stmt, command, reason, false)
}

fn is_noted_cause(
    alloc: Global,
    moment: &Moment<'_, '_>,
    stmt: &Stmt,
    command: Command,
    reason: Refused,
) -> Mem<bool>
    ensures { IfOk result (λ is. IsTrue is ↔ IsCause (point_of moment.now) stmt.now command.level command.gxid command.cid reason) }
{
    is_cause(alloc, moment, stmt, command, reason, true)
}

// The command's transaction has aborted in the point's step, and for this reason.
fn is_aborted_for(
    alloc: Global,
    moment: &Moment<'_, '_>,
    stmt: &Stmt,
    command: Command,
    reason: Refused,
) -> Mem<bool>
    ensures { IfOk result (λ is. IsTrue is ↔ IsAbortedFor (point_of moment.now) stmt.now command.level command.gxid command.cid reason) }
{
    if !is_aborted(moment.earlier, command.gxid) {
        return Ok(false);
    }
    is_reason(alloc, moment, stmt, command, reason)
}

// Whether the session's line, which has a transaction, may be refused for this reason.
fn is_refused_for(
    alloc: Global,
    moment: &Moment<'_, '_>,
    session: SessionId,
    line: &Stmt,
    reason: Refused,
) -> Mem<bool>
    requires { HasNumber (state_at moment.now.script.now session (point_of moment.now)) }
    ensures { IfOk result (λ is. IsTrue is ↔ IsRefusedFor (point_of moment.now) session (state_at moment.now.script.now session (point_of moment.now)) line.now reason) }
{
    let block = standing_at(moment, session).block;
    if !may_refuse(block, line, reason) {
        return Ok(false);
    }
    let Some(gxid) = transaction_at(moment, session) else {
        return Ok(false);
    };
    let command = Command {
        level: level_in(block),
        gxid,
        cid: number_in(block),
    };
    is_aborted_for(alloc, moment, line, command, reason)
}

// Whether what so judged a refusal has to meet holds.
fn meets_as(
    alloc: Global,
    moment: &Moment<'_, '_>,
    session: SessionId,
    line: &Stmt,
    reason: Refused,
    judgement: Judgement,
) -> Mem<bool>
    requires { HasNumber (state_at moment.now.script.now session (point_of moment.now)) }
    ensures { IfOk result (λ is. IsTrue is ↔ MeetsAs (point_of moment.now) session (state_at moment.now.script.now session (point_of moment.now)) line.now reason judgement) }
{
    match judgement {
        Judgement::Holds => Ok(true),
        Judgement::Refused(_) => is_refused_for(alloc, moment, session, line, reason),
        _ => Ok(false),
    }
}

// Whether it may be refused so where it stands.
fn is_refused(
    alloc: Global,
    moment: &Moment<'_, '_>,
    session: SessionId,
    line: &Stmt,
    reason: Refused,
) -> Mem<bool>
    requires { HasNumber (state_at moment.now.script.now session (point_of moment.now)) }
    ensures { IfOk result (λ is. IsTrue is ↔ IsRefused (point_of moment.now) session (state_at moment.now.script.now session (point_of moment.now)) line.now reason) }
{
    let judgement = judge_refusal(standing_at(moment, session).block, line, reason);
    meets_as(alloc, moment, session, line, reason, judgement)
}

/// Whether the session's line under way may be refused so.
pub fn is_legal_refused(
    alloc: Global,
    moment: &Moment<'_, '_>,
    session: SessionId,
    reason: Refused,
) -> Mem<bool>
    requires { IsScript moment.now.script.now }
    ensures { IfOk result (λ is. IsTrue is ↔ IsLegalRefused moment.now.script.now (point_of moment.now) session reason) }
{
    match line_under_way(moment, session) {
        Some(line) => is_refused(alloc, moment, session, line, reason),
        None => Ok(false),
    }
}

// Where the line may be refused so, whether its cause stands.
fn is_caused(
    alloc: Global,
    moment: &Moment<'_, '_>,
    session: SessionId,
    line: &Stmt,
    reason: Refused,
) -> Mem<bool>
    requires { HasNumber (state_at moment.now.script.now session (point_of moment.now)) }
    ensures { IfOk result (λ is. IsTrue is ↔ IsLineCaused moment.now.script.now (point_of moment.now) session reason line.now) }
{
    let block = standing_at(moment, session).block;
    if !may_refuse(block, line, reason) {
        return Ok(true);
    }
    let Some(gxid) = transaction_at(moment, session) else {
        return Ok(true);
    };
    let command = Command {
        level: level_in(block),
        gxid,
        cid: number_in(block),
    };
    is_noted_cause(alloc, moment, line, command, reason)
}

/// Whether the cause of a refusal stands as a segment has noted it.
pub fn has_cause(
    alloc: Global,
    moment: &Moment<'_, '_>,
    session: SessionId,
    reason: Refused,
) -> Mem<bool>
    requires { IsScript moment.now.script.now }
    ensures { IfOk result (λ is. IsTrue is ↔ HasCause moment.now.script.now (point_of moment.now) session reason) }
{
    match line_under_way(moment, session) {
        Some(line) => is_caused(alloc, moment, session, line, reason),
        None => Ok(true),
    }
}
