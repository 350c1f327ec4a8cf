// For what the lines of transactions are refused where a segment has failed.
ghost use Rattle.std.specs.Prelude.{◌≡◌, ◌≢◌, ◌++◌, ◌∷◌, List, None, Some, IfOk, OnOk, if◌then◌else◌, option_copied};
ghost use Rattle.std.specs.Option.{option_map};
ghost use Rattle.gx_ids.specs.declared.ids.Gxid.{Gxid as OneGxid};
ghost use Rattle.gx_trace.specs.declared.seen.SeenMark.{SeenMark as OneMark};
ghost use Rattle.gx_judging.specs.Answers.{answer_at, cause_at};
ghost use Rattle.gx_judging.specs.Filled.{cause_from, cause_of as segment_cause, marks_seen, refusal_behind as behind, with_refusal};

use crate::answers::Answers;
use gx_ids::{Gxid, Mem};
use gx_msg::Cause;
use gx_store::{Mark, Refused, StmtAnswer};
use gx_trace::{SeenMark, SeenStep};
use std::alloc::Global;
use std::collections::BTreeMap;

/// The causes so far, and who has aborted last.
#[derive(Drop)]
pub struct Causes {
    pub by_gxid: BTreeMap<Gxid, Cause>,
    pub aborted: Option<Gxid>,
}

fn cause_of(answer: Option<&StmtAnswer>) -> Option<Cause>
    ensures { result ≡ segment_cause (option_copied answer.entry) }
{
    match answer {
        Some(StmtAnswer::Refused(Refused::Serialization(rid, newer))) => {
            Some(Cause::Serialization(*rid, *newer))
        }
        Some(StmtAnswer::Refused(Refused::Overflow)) => Some(Cause::Overflow),
        Some(StmtAnswer::Refused(Refused::DivisionByZero)) => Some(Cause::DivisionByZero),
        _ => None,
    }
}

fn refusal_behind(aborted: Option<Gxid>, cause: Option<Cause>) -> Option<(Gxid, Cause)>
    ensures { result ≡ behind aborted cause }
{
    match aborted {
        Some(gxid) => match cause {
            Some(cause) => Some((gxid, cause)),
            None => None,
        },
        None => None,
    }
}

fn note_cause(causes: &mut Causes, gxid: Gxid, cause: Cause) -> Mem<()>
    ensures aborted { OnOk result (causes.new.aborted ≡ causes.old.aborted) }
    ensures there { OnOk result (cause_at causes.new gxid ≡ Some cause) }
    ensures elsewhere { OnOk result ((g : OneGxid) → g.0 ≢ gxid.0 → cause_at causes.new g ≡ cause_at causes.old g) }
{
    causes.by_gxid.insert(gxid, cause)?;
    Ok(())
}

#[tactic(auto, using(crate::proofs::Grouping::caused))]
fn note_refusal(causes: &mut Causes, refusal: Option<(Gxid, Cause)>) -> Mem<()>
    ensures aborted { OnOk result (causes.new.aborted ≡ causes.old.aborted) }
    ensures causes { OnOk result ((g : OneGxid) → cause_at causes.new g ≡ with_refusal g (cause_at causes.old g) refusal) }
{
    if let Some((gxid, cause)) = refusal {
        note_cause(causes, gxid, cause)?;
    }
    Ok(())
}

// Notes for what a line is refused behind the abort of the transaction that aborted last.
fn note_answer(causes: &mut Causes, cause: Option<Cause>) -> Mem<()>
    ensures aborted { OnOk result (causes.new.aborted ≡ causes.old.aborted) }
    ensures causes { OnOk result ((g : OneGxid) → cause_at causes.new g ≡ with_refusal g (cause_at causes.old g) (behind causes.old.aborted cause)) }
{
    let refusal = refusal_behind(causes.aborted, cause);
    note_refusal(causes, refusal)
}

fn note_mark(causes: &mut Causes, answers: &Answers, mark: &SeenMark) -> Mem<()>
    ensures { OnOk result ((g : OneGxid) (more : List OneMark) → cause_from (answer_at answers.now) g (cause_at causes.new g) causes.new.aborted more ≡ cause_from (answer_at answers.now) g (cause_at causes.old g) causes.old.aborted (mark.now ∷ more)) }
{
    match mark {
        SeenMark::Whole(Mark::Abort { gxid }) => {
            causes.aborted = Some(*gxid);
            Ok(())
        }
        SeenMark::Answer { session, number } => {
            let cause = cause_of(answers.to(*session, *number));
            note_answer(causes, cause)
        }
        _ => Ok(()),
    }
}

fn note_marks(causes: &mut Causes, answers: &Answers, marks: &[SeenMark]) -> Mem<()>
    ensures { OnOk result ((g : OneGxid) (more : List OneMark) → cause_from (answer_at answers.now) g (cause_at causes.new g) causes.new.aborted more ≡ cause_from (answer_at answers.now) g (cause_at causes.old g) causes.old.aborted (marks.now ++ more)) }
{
    for mark in marks {
        note_mark(causes, answers, mark)?;
    }
    Ok(())
}

fn note_steps(causes: &mut Causes, answers: &Answers, steps: &[SeenStep]) -> Mem<()>
    ensures { OnOk result ((g : OneGxid) → cause_at causes.new g ≡ cause_from (answer_at answers.now) g (cause_at causes.old g) causes.old.aborted (marks_seen steps.now)) }
{
    for step in steps {
        note_marks(causes, answers, step.marks.as_slice())?;
    }
    Ok(())
}

impl Causes {
    /// Of a run that is shown by its steps and these answers.
    pub fn of(alloc: Global, answers: &Answers, steps: &[SeenStep]) -> Mem<Causes>
        ensures { IfOk result (λ causes. (g : OneGxid) → cause_at causes g ≡ cause_from (answer_at answers.now) g None None (marks_seen steps.now)) }
    {
        let mut causes = Causes {
            by_gxid: BTreeMap::new(alloc),
            aborted: None,
        };
        note_steps(&mut causes, answers, steps)?;
        Ok(causes)
    }

    /// For what the transaction's line is refused.
    pub fn cause(&self, gxid: Gxid) -> Option<Cause>
        ensures { result ≡ cause_at self.now gxid }
    {
        self.by_gxid.get(&gxid).copied()
    }
}
