// Whether a round of the detector may end so.
ghost use Rattle.std.specs.Prelude.{◌≡◌, ◌↔◌, ℕ, All, Contains, IsTrue};
ghost use Rattle.std.specs.List.{AllByRecursion};
ghost use Rattle.gx_store.specs.declared.answer.Refused.TheVariants.{Victim};
ghost use Rattle.gx_store.specs.declared.answer.StmtAnswer.TheVariants.{Refused as RefusedBy};
ghost use Rattle.gx_store.specs.declared.mark.Mark.TheVariants.{Answer};
ghost use Rattle.gx_store.specs.Legal.{IsCancelled, LegalVerdict};
ghost use Rattle.gx_legal.specs.Moments.{point_of};
ghost use Rattle.gx_legal.specs.Verdicts.{HasRefusal, IsRefusalOf};

use crate::counts::session_of;
use crate::marks::is_aborted;
use crate::moment::Moment;
use gx_ids::{Gxid, SessionId};
use gx_store::{Mark, Refused, StmtAnswer};
use gx_waits::Verdict;

fn is_refusal(answer: &StmtAnswer, round: u64) -> bool
    ensures { IsTrue result ↔ (answer.now ≡ RefusedBy (Victim round)) }
{
    match answer {
        StmtAnswer::Refused(Refused::Victim(of)) => *of == round,
        _ => false,
    }
}

fn is_refusal_of(mark: &Mark, session: SessionId, round: u64) -> bool
    ensures { IsTrue result ↔ IsRefusalOf session round mark.now }
{
    match mark {
        Mark::Answer {
            session: answered,
            number: _,
            answer,
        } => *answered == session && is_refusal(answer, round),
        _ => false,
    }
}

fn has_refusal(marks: &[Mark], session: SessionId, round: u64) -> bool
    ensures { IsTrue result ↔ HasRefusal session round marks.now }
{
    for mark in marks {
        if is_refusal_of(mark, session, round) {
            return true;
        }
    }
    false
}

fn is_cancelled(moment: &Moment<'_, '_>, round: u64, gxid: Gxid) -> bool
    ensures { IsTrue result ↔ IsCancelled (point_of moment.now) round gxid }
{
    match session_of(moment.before, gxid) {
        Some(session) => is_aborted(moment.later, gxid)
            && has_refusal(moment.later, session, round),
        None => false,
    }
}

fn each_is_cancelled(moment: &Moment<'_, '_>, round: u64, victims: &[Gxid]) -> bool
    ensures { IsTrue result ↔ AllByRecursion (IsCancelled (point_of moment.now) round) victims.now }
{
    for victim in victims {
        if !is_cancelled(moment, round, *victim) {
            return false;
        }
    }
    true
}

fn are_cancelled(moment: &Moment<'_, '_>, round: u64, victims: &[Gxid]) -> bool
    ensures { IsTrue result ↔ All (IsCancelled (point_of moment.now) round) victims.now }
{
    let are = each_is_cancelled(moment, round, victims);
    are
}

/// Whether the round may end so.
pub fn is_legal_verdict(moment: &Moment<'_, '_>, round: u64, verdict: &Verdict) -> bool
    ensures { IsTrue result ↔ LegalVerdict (point_of moment.now) round verdict.now }
{
    match verdict {
        Verdict::Victims(victims) => are_cancelled(moment, round, victims.as_slice()),
        _ => true,
    }
}
