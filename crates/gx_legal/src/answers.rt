// Whether a line may have an answer that is no refusal.
ghost use Rattle.std.specs.Prelude.{◌≡◌, ◌↔◌, ◌+◌, IfOk, IsTrue, false};
ghost use Rattle.gx_store.specs.Answers.{HasAborted, HasCommitted};
ghost use Rattle.gx_store.specs.Commands.{state_at};
ghost use Rattle.gx_store.specs.Language.{IsScript};
ghost use Rattle.gx_store.specs.Marks.{answer_count};
ghost use Rattle.gx_store.specs.Parts.{IsLegalReply, IsReply};
ghost use Rattle.gx_store.specs.Points.{before};
ghost use Rattle.gx_legal.specs.Answers.{MayReply, Meets, is_refusal as refuses};
ghost use Rattle.gx_legal.specs.Moments.{point_of};
ghost use Rattle.gx_legal.specs.Standings.{HasNumber};

use crate::done::has_succeeded;
use crate::judgement::{Judgement, judge};
use crate::lines::{line_under_way, transaction_at};
use crate::marks::{is_aborted, is_committed};
use crate::moment::Moment;
use crate::seats::standing_at;
use gx_ids::{Mem, SessionId};
use gx_store::StmtAnswer;
use gx_tree::Stmt;
use std::alloc::Global;

// Whether the session's block has committed in the point's step.
fn has_committed(moment: &Moment<'_, '_>, session: SessionId) -> bool
    ensures { IsTrue result ↔ HasCommitted (point_of moment.now) session (state_at moment.now.script.now session (point_of moment.now)) }
{
    match transaction_at(moment, session) {
        Some(gxid) => is_committed(moment.earlier, gxid),
        None => false,
    }
}

// Whether it has aborted in it.
fn has_aborted(moment: &Moment<'_, '_>, session: SessionId) -> bool
    ensures { IsTrue result ↔ HasAborted (point_of moment.now) session (state_at moment.now.script.now session (point_of moment.now)) }
{
    match transaction_at(moment, session) {
        Some(gxid) => is_aborted(moment.earlier, gxid),
        None => false,
    }
}

fn meets(
    alloc: Global,
    moment: &Moment<'_, '_>,
    session: SessionId,
    line: &Stmt,
    answer: &StmtAnswer,
    judgement: Judgement,
) -> Mem<bool>
    requires { HasNumber (state_at moment.now.script.now session (point_of moment.now)) }
    ensures { IfOk result (λ is. IsTrue is ↔ Meets moment.now.script.now (point_of moment.now) session (state_at moment.now.script.now session (point_of moment.now)) line.now answer.now judgement) }
{
    match judgement {
        Judgement::Holds | Judgement::Refused(_) => Ok(true),
        Judgement::Fails => Ok(false),
        Judgement::Begun => Ok(standing_at(moment, session).begun),
        Judgement::Committed => Ok(has_committed(moment, session)),
        Judgement::Aborted => Ok(has_aborted(moment, session)),
        Judgement::Done => has_succeeded(alloc, moment, session, line, answer),
    }
}

fn is_refusal(answer: &StmtAnswer) -> bool
    ensures { result ≡ refuses answer.now }
{
    match answer {
        StmtAnswer::Refused(_) => true,
        _ => false,
    }
}

fn is_judged_reply(
    alloc: Global,
    moment: &Moment<'_, '_>,
    session: SessionId,
    line: &Stmt,
    answer: &StmtAnswer,
) -> Mem<bool>
    requires number { HasNumber (state_at moment.now.script.now session (point_of moment.now)) }
    requires reply { refuses answer.now ≡ false }
    ensures { IfOk result (λ is. IsTrue is ↔ IsReply moment.now.script.now (point_of moment.now) session (state_at moment.now.script.now session (point_of moment.now)) line.now answer.now) }
{
    let judgement = judge(standing_at(moment, session).block, line, answer);
    meets(alloc, moment, session, line, answer, judgement)
}

fn is_reply(
    alloc: Global,
    moment: &Moment<'_, '_>,
    session: SessionId,
    line: &Stmt,
    answer: &StmtAnswer,
) -> Mem<bool>
    requires { HasNumber (state_at moment.now.script.now session (point_of moment.now)) }
    ensures { IfOk result (λ is. IsTrue is ↔ IsReply moment.now.script.now (point_of moment.now) session (state_at moment.now.script.now session (point_of moment.now)) line.now answer.now) }
{
    if is_refusal(answer) {
        return Ok(true);
    }
    is_judged_reply(alloc, moment, session, line, answer)
}

fn is_next(moment: &Moment<'_, '_>, session: SessionId, number: u32) -> bool
    ensures { IsTrue result ↔ (number ≡ answer_count session (before (point_of moment.now)) + 1) }
{
    number as usize == standing_at(moment, session).answered + 1
}

fn may_reply(
    alloc: Global,
    moment: &Moment<'_, '_>,
    line: (SessionId, u32),
    stmt: &Stmt,
    answer: &StmtAnswer,
) -> Mem<bool>
    requires { HasNumber (state_at moment.now.script.now line.0 (point_of moment.now)) }
    ensures { IfOk result (λ is. IsTrue is ↔ MayReply moment.now.script.now (point_of moment.now) line.0 line.1 answer.now stmt.now) }
{
    if !is_next(moment, line.0, line.1) {
        return Ok(false);
    }
    is_reply(alloc, moment, line.0, stmt, answer)
}

/// Whether the session's line of this number may have this answer, as far as that is no refusal.
pub fn is_legal_reply(
    alloc: Global,
    moment: &Moment<'_, '_>,
    line: (SessionId, u32),
    answer: &StmtAnswer,
) -> Mem<bool>
    requires { IsScript moment.now.script.now }
    ensures { IfOk result (λ is. IsTrue is ↔ IsLegalReply moment.now.script.now (point_of moment.now) line.0 line.1 answer.now) }
{
    match line_under_way(moment, line.0) {
        Some(stmt) => may_reply(alloc, moment, line, stmt, answer),
        None => Ok(false),
    }
}
