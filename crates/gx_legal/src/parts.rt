// Whether a mark may stand at a point, in the four parts of what is legal of it.
ghost use Rattle.std.specs.Prelude.{◌≡◌, ◌↔◌, IfOk, IsTrue};
ghost use Rattle.gx_script.specs.declared.Script.{Script as OneScript};
ghost use Rattle.gx_store.specs.declared.mark.Mark.{Mark as OneMark};
ghost use Rattle.gx_store.specs.Language.{IsScript};
ghost use Rattle.gx_store.specs.Legal.{LegalMark};
ghost use Rattle.gx_store.specs.Parts.{IsAnswerBeside, IsAnswerRefused, IsLegalBeside, IsLegalRefusal, IsLegalRow, IsLegalStatement};
ghost use Rattle.gx_store.specs.Points.{Point};
ghost use Rattle.gx_legal.specs.Answers.{refusal_in};
ghost use Rattle.gx_legal.specs.Moments.{point_of};

use crate::answers::is_legal_reply;
use crate::doing::{is_legal_fault, is_legal_skip, is_legal_write};
use crate::done::has_returned;
use crate::ends::{is_legal_abort, is_legal_commit};
use crate::moment::Moment;
use crate::refusals::{has_cause, is_legal_refused};
use crate::snaps::is_legal_snap;
use crate::starts::is_legal_start;
use crate::verdicts::is_legal_verdict;
use gx_ids::{Mem, SessionId};
use gx_store::{Mark, Refused, StmtAnswer};
use std::alloc::Global;

/// A mark is legal where all of its parts are: writes and skips; statements; refusals; and what is asked beside these.
pub fn legal_marks_have_four_parts()
    ensures { (script : OneScript) (point : Point) (mark : OneMark)
        → LegalMark script point mark ↔ (IsLegalRow script point mark × IsLegalStatement script point mark × IsLegalRefusal script point mark × IsLegalBeside script point mark) }
{}

/// Whether the mark may stand here as a write or a skip.
pub fn is_legal_row(alloc: Global, moment: &Moment<'_, '_>, mark: &Mark) -> Mem<bool>
    requires { IsScript moment.now.script.now }
    ensures { IfOk result (λ is. IsTrue is ↔ IsLegalRow moment.now.script.now (point_of moment.now) mark.now) }
{
    match mark {
        Mark::Write {
            gxid,
            cid,
            node,
            table,
            rid,
            image,
        } => is_legal_write(alloc, moment, (*gxid, *cid), (*node, *table, *rid), image),
        Mark::Skip { gxid, cid, rid } => is_legal_skip(alloc, moment, (*gxid, *cid), *rid),
        _ => Ok(true),
    }
}

/// Whether it may as part of a statement: its start, its snapshot, an end, or an answer that is no refusal.
pub fn is_legal_statement(alloc: Global, moment: &Moment<'_, '_>, mark: &Mark) -> Mem<bool>
    requires { IsScript moment.now.script.now }
    ensures { IfOk result (λ is. IsTrue is ↔ IsLegalStatement moment.now.script.now (point_of moment.now) mark.now) }
{
    match mark {
        Mark::Start { gxid, session } => Ok(is_legal_start(moment, *gxid, *session)),
        Mark::Snap {
            gxid,
            cid,
            snapshot,
        } => is_legal_snap(alloc, moment, (*gxid, *cid), snapshot),
        Mark::Commit { gxid } => Ok(is_legal_commit(moment, *gxid)),
        Mark::Abort { gxid } => Ok(is_legal_abort(moment, *gxid)),
        Mark::Answer {
            session,
            number,
            answer,
        } => is_legal_reply(alloc, moment, (*session, *number), answer),
        _ => Ok(true),
    }
}

fn refusal_of(answer: &StmtAnswer) -> Option<Refused>
    ensures { result ≡ refusal_in answer.now }
{
    match answer {
        StmtAnswer::Refused(reason) => Some(*reason),
        _ => None,
    }
}

fn is_answer_refused(
    alloc: Global,
    moment: &Moment<'_, '_>,
    session: SessionId,
    answer: &StmtAnswer,
) -> Mem<bool>
    requires { IsScript moment.now.script.now }
    ensures { IfOk result (λ is. IsTrue is ↔ IsAnswerRefused moment.now.script.now (point_of moment.now) session answer.now) }
{
    match refusal_of(answer) {
        Some(reason) => is_legal_refused(alloc, moment, session, reason),
        None => Ok(true),
    }
}

fn is_answer_beside(
    alloc: Global,
    moment: &Moment<'_, '_>,
    session: SessionId,
    answer: &StmtAnswer,
) -> Mem<bool>
    requires { IsScript moment.now.script.now }
    ensures { IfOk result (λ is. IsTrue is ↔ IsAnswerBeside moment.now.script.now (point_of moment.now) session answer.now) }
{
    match refusal_of(answer) {
        Some(reason) => has_cause(alloc, moment, session, reason),
        None => has_returned(alloc, moment, session),
    }
}

/// Whether it may as a refusal, or as a fault.
pub fn is_legal_refusal(alloc: Global, moment: &Moment<'_, '_>, mark: &Mark) -> Mem<bool>
    requires { IsScript moment.now.script.now }
    ensures { IfOk result (λ is. IsTrue is ↔ IsLegalRefusal moment.now.script.now (point_of moment.now) mark.now) }
{
    match mark {
        Mark::Fault {
            gxid,
            cid,
            rid,
            image,
        } => is_legal_fault(alloc, moment, (*gxid, *cid), *rid, image),
        Mark::Answer {
            session,
            answer,
            ..
        } => is_answer_refused(alloc, moment, *session, answer),
        _ => Ok(true),
    }
}

/// Whether what is asked beside these holds: whoever a round names is cancelled, each node to which a command goes has returned, and the
/// segment that refuses has noted the fault.
pub fn is_legal_beside(alloc: Global, moment: &Moment<'_, '_>, mark: &Mark) -> Mem<bool>
    requires { IsScript moment.now.script.now }
    ensures { IfOk result (λ is. IsTrue is ↔ IsLegalBeside moment.now.script.now (point_of moment.now) mark.now) }
{
    match mark {
        Mark::Recheck { round, verdict, .. } => Ok(is_legal_verdict(moment, *round, verdict)),
        Mark::Answer {
            session,
            answer,
            ..
        } => is_answer_beside(alloc, moment, *session, answer),
        _ => Ok(true),
    }
}

/// Whether the mark may stand at this point: all four together.
pub fn is_legal_mark(alloc: Global, moment: &Moment<'_, '_>, mark: &Mark) -> Mem<bool>
    requires { IsScript moment.now.script.now }
    ensures { IfOk result (λ is. IsTrue is ↔ LegalMark moment.now.script.now (point_of moment.now) mark.now) }
{
    if !is_legal_row(alloc, moment, mark)? {
        return Ok(false);
    }
    if !is_legal_statement(alloc, moment, mark)? {
        return Ok(false);
    }
    if !is_legal_refusal(alloc, moment, mark)? {
        return Ok(false);
    }
    is_legal_beside(alloc, moment, mark)
}
