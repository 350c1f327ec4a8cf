// The run that a trace shows, with what its printing cut off.
ghost use Rattle.std.specs.Prelude.{◌≡◌, ◌++◌, ℕ, map, unwrap_or, IfOk, OnOk};
ghost use Rattle.gx_judging.specs.Answers.{answer_at, answers_at, cause_at};
ghost use Rattle.gx_judging.specs.Filled.{answers_of, filled, filled_mark as mark_of, filled_step as step_of};

use crate::answers::{Answers, answer_copy};
use crate::causes::Causes;
use crate::messages::message_of;
use gx_copies::mark_copy;
use gx_ids::{Mem, Seq, SessionId};
use gx_store::{Mark, Refused, Step, StmtAnswer};
use gx_trace::{Seen, SeenMark, SeenStep};
use std::alloc::Global;

fn answered(alloc: Global, answers: &Answers, session: SessionId, number: u32) -> Mem<StmtAnswer>
    ensures { IfOk result (λ answer. answer ≡ unwrap_or (answer_at answers.now session number) (StmtAnswer.Refused Refused.NotInBlock)) }
{
    match answers.to(session, number) {
        Some(answer) => answer_copy(alloc, answer),
        None => Ok(StmtAnswer::Refused(Refused::NotInBlock)),
    }
}

fn filled_mark(alloc: Global, answers: &Answers, causes: &Causes, mark: &SeenMark) -> Mem<Mark>
    ensures { IfOk result (λ m. m ≡ mark_of (answer_at answers.now) (cause_at causes.now) mark.now) }
{
    match mark {
        SeenMark::Whole(mark) => mark_copy(alloc, mark),
        SeenMark::Sent {
            to,
            number,
            message,
        } => Ok(Mark::Sent {
            to: *to,
            number: *number,
            message: message_of(alloc, causes, message.as_slice())?,
        }),
        SeenMark::Answer { session, number } => Ok(Mark::Answer {
            session: *session,
            number: *number,
            answer: answered(alloc, answers, *session, *number)?,
        }),
    }
}

fn push_filled(
    alloc: Global,
    answers: &Answers,
    causes: &Causes,
    marks: &[SeenMark],
    all: &mut Vec<Mark>,
) -> Mem<()>
    ensures { OnOk result (all.new.items ≡ all.old.items ++ map (mark_of (answer_at answers.now) (cause_at causes.now)) marks.now) }
{
    for mark in marks {
        all.push(filled_mark(alloc, answers, causes, mark)?)?;
    }
    Ok(())
}

fn filled_step(alloc: Global, answers: &Answers, causes: &Causes, step: &SeenStep) -> Mem<Step>
    ensures { IfOk result (λ filled. filled ≡ step_of (answer_at answers.now) (cause_at causes.now) step.now) }
{
    let mut marks = Vec::new(alloc);
    match push_filled(alloc, answers, causes, step.marks.as_slice(), &mut marks) {
        Ok(()) => Ok(Step {
            stamp: step.stamp,
            event: step.event,
            marks: Seq::from_vec(marks),
        }),
        Err(fault) => {
            drop(marks);
            Err(fault)
        }
    }
}

fn filled_steps(
    alloc: Global,
    answers: &Answers,
    causes: &Causes,
    steps: &[SeenStep],
) -> Mem<Vec<Step>>
    ensures { IfOk result (λ all. all.items ≡ map (step_of (answer_at answers.now) (cause_at causes.now)) steps.now) }
{
    let mut all = Vec::new(alloc);
    for step in steps {
        all.push(filled_step(alloc, answers, causes, step)?)?;
    }
    Ok(all)
}

/// The steps of that run.
pub fn fill(alloc: Global, answers: &Answers, seen: &Seen) -> Mem<Vec<Step>>
    requires { (k : ℕ) → answers_at answers.now.by_session.items k ≡ answers_of k seen.now.answers }
    ensures { IfOk result (λ steps. steps.items ≡ filled seen.now) }
{
    let steps = seen.steps.as_slice();
    let causes = Causes::of(alloc, answers, steps)?;
    filled_steps(alloc, answers, &causes, steps)
}
