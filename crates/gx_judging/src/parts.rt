// Whether the marks of a run may stand where they stand, in one of three parts of what is legal of them.
ghost use Rattle.std.specs.Prelude.{◌≡◌, ◌↔◌, ◌++◌, [], IfOk, IsTrue};
ghost use Rattle.gx_store.specs.Language.{IsScript};
ghost use Rattle.gx_store.specs.Points.{marks_in};
ghost use Rattle.gx_legal.specs.Answers.{refusal_in};
ghost use Rattle.gx_legal.specs.Moments.{point_of};
ghost use Rattle.gx_legal.specs.Tallies.{IsTally};
ghost use Rattle.gx_judging.specs.Parts.{AreLegalIn, AreLegalMarksIn, HasCauseFor, HasReturnedFor, IsDoneThere, IsLegalIn, IsLegalStepIn, IsNotedThere, MayBeginIn};

use gx_ids::{Mem, SessionId};
use gx_legal::copying::all_marks;
use gx_legal::done::has_returned;
use gx_legal::events::{is_drawn, is_legal_event};
use gx_legal::refusals::has_cause;
use gx_legal::stretch::{Stretch, moment_at};
use gx_legal::tally::{Tally, count_event, count_mark, no_tally};
use gx_legal::verdicts::is_legal_verdict;
use gx_legal::{Moment, is_legal_refusal, is_legal_row, is_legal_statement};
use gx_script::Script;
use gx_store::{Mark, Refused, Step, StmtAnswer};
use std::alloc::Global;

/// A part of what makes a run a legal history: its writes and skips, its statements, its refusals.
#[derive(Clone, Copy)]
pub enum Part {
    Rows,
    Statements,
    Refusals,
}

fn refusal_of(answer: &StmtAnswer) -> Option<Refused>
    ensures { result ≡ refusal_in answer.now }
{
    match answer {
        StmtAnswer::Refused(reason) => Some(*reason),
        _ => None,
    }
}

fn has_returned_for(
    alloc: Global,
    moment: &Moment<'_, '_>,
    session: SessionId,
    answer: &StmtAnswer,
) -> Mem<bool>
    requires { IsScript moment.now.script.now }
    ensures { IfOk result (λ has. IsTrue has ↔ HasReturnedFor moment.now.script.now (point_of moment.now) session answer.now) }
{
    match refusal_of(answer) {
        Some(_reason) => Ok(true),
        None => has_returned(alloc, moment, session),
    }
}

fn is_done_there(alloc: Global, moment: &Moment<'_, '_>, mark: &Mark) -> Mem<bool>
    requires { IsScript moment.now.script.now }
    ensures { IfOk result (λ is. IsTrue is ↔ IsDoneThere moment.now.script.now (point_of moment.now) mark.now) }
{
    match mark {
        Mark::Answer {
            session,
            answer,
            ..
        } => has_returned_for(alloc, moment, *session, answer),
        _ => Ok(true),
    }
}

fn has_cause_for(
    alloc: Global,
    moment: &Moment<'_, '_>,
    session: SessionId,
    answer: &StmtAnswer,
) -> Mem<bool>
    requires { IsScript moment.now.script.now }
    ensures { IfOk result (λ has. IsTrue has ↔ HasCauseFor moment.now.script.now (point_of moment.now) session answer.now) }
{
    match refusal_of(answer) {
        Some(reason) => has_cause(alloc, moment, session, reason),
        None => Ok(true),
    }
}

fn is_noted_there(alloc: Global, moment: &Moment<'_, '_>, mark: &Mark) -> Mem<bool>
    requires { IsScript moment.now.script.now }
    ensures { IfOk result (λ is. IsTrue is ↔ IsNotedThere moment.now.script.now (point_of moment.now) mark.now) }
{
    match mark {
        Mark::Answer {
            session,
            answer,
            ..
        } => has_cause_for(alloc, moment, *session, answer),
        Mark::Recheck { round, verdict, .. } => Ok(is_legal_verdict(moment, *round, verdict)),
        _ => Ok(true),
    }
}

fn is_statement(alloc: Global, moment: &Moment<'_, '_>, mark: &Mark) -> Mem<bool>
    requires { IsScript moment.now.script.now }
    ensures { IfOk result (λ is. IsTrue is ↔ IsLegalIn Part.Statements moment.now.script.now (point_of moment.now) mark.now) }
{
    if !is_legal_statement(alloc, moment, mark)? {
        return Ok(false);
    }
    is_done_there(alloc, moment, mark)
}

fn is_refusal(alloc: Global, moment: &Moment<'_, '_>, mark: &Mark) -> Mem<bool>
    requires { IsScript moment.now.script.now }
    ensures { IfOk result (λ is. IsTrue is ↔ IsLegalIn Part.Refusals moment.now.script.now (point_of moment.now) mark.now) }
{
    if !is_legal_refusal(alloc, moment, mark)? {
        return Ok(false);
    }
    is_noted_there(alloc, moment, mark)
}

fn is_legal_in(alloc: Global, part: Part, moment: &Moment<'_, '_>, mark: &Mark) -> Mem<bool>
    requires { IsScript moment.now.script.now }
    ensures { IfOk result (λ is. IsTrue is ↔ IsLegalIn part moment.now.script.now (point_of moment.now) mark.now) }
{
    match part {
        Part::Rows => is_legal_row(alloc, moment, mark),
        Part::Statements => is_statement(alloc, moment, mark),
        Part::Refusals => is_refusal(alloc, moment, mark),
    }
}

fn are_legal_marks(alloc: Global, part: Part, stretch: &Stretch<'_>, tally: &mut Tally) -> Mem<bool>
    requires script { IsScript stretch.now.script.now }
    requires tally { IsTally stretch.now.script.now stretch.now.steps.now (marks_in stretch.now.steps.now) tally.old }
    ensures are { IfOk result (λ are. IsTrue are ↔ AreLegalMarksIn part stretch.now.script.now stretch.now.steps.now stretch.now.event [] stretch.now.marks.now) }
    ensures tally { IfOk result (λ are. IsTrue are → IsTally stretch.now.script.now stretch.now.steps.now (marks_in stretch.now.steps.now ++ stretch.now.marks.now) tally.new) }
{
    for number in 0..stretch.marks.len() {
        let mark = &stretch.marks[number];
        let moment = moment_at(stretch, number, &stretch.marks[number + 1..], tally);
        if !is_legal_in(alloc, part, &moment, mark)? {
            return Ok(false);
        }
        count_mark(stretch.script, tally, mark)?;
    }
    Ok(true)
}

// Whether the step may begin so.
fn may_begin(part: Part, stretch: &Stretch<'_>, tally: &Tally) -> bool
    requires { IsTally stretch.now.script.now stretch.now.steps.now (marks_in stretch.now.steps.now) tally.now }
    ensures { IsTrue result ↔ MayBeginIn part stretch.now.script.now stretch.now.steps.now stretch.now.event stretch.now.marks.now }
{
    match part {
        Part::Statements => may_statement_begin(stretch, tally),
        _ => true,
    }
}

fn may_statement_begin(stretch: &Stretch<'_>, tally: &Tally) -> bool
    requires { IsTally stretch.now.script.now stretch.now.steps.now (marks_in stretch.now.steps.now) tally.now }
    ensures { IsTrue result ↔ MayBeginIn Part.Statements stretch.now.script.now stretch.now.steps.now stretch.now.event stretch.now.marks.now }
{
    let moment = moment_at(stretch, 0, &[], tally);
    is_legal_event(&moment, stretch.marks) && is_drawn(&moment, stretch.marks)
}

fn may_follow(alloc: Global, part: Part, stretch: &Stretch<'_>, tally: &mut Tally) -> Mem<bool>
    requires script { IsScript stretch.now.script.now }
    requires tally { IsTally stretch.now.script.now stretch.now.steps.now (marks_in stretch.now.steps.now) tally.old }
    ensures is { IfOk result (λ is. IsTrue is ↔ IsLegalStepIn part stretch.now.script.now stretch.now.steps.now stretch.now.event stretch.now.marks.now) }
    ensures tally { IfOk result (λ is. IsTrue is → IsTally stretch.now.script.now stretch.now.steps.now (marks_in stretch.now.steps.now ++ stretch.now.marks.now) tally.new) }
{
    if !may_begin(part, stretch, tally) {
        return Ok(false);
    }
    are_legal_marks(alloc, part, stretch, tally)
}

/// Whether the steps are a legal history, as far as the part goes.
pub fn are_legal_in(
    alloc: Global,
    part: Part,
    script: &Script,
    steps: &[Step],
    all: &[Mark],
) -> Mem<bool>
    requires script { IsScript script.now }
    requires all { all.now ≡ marks_in steps.now }
    ensures { IfOk result (λ are. IsTrue are ↔ AreLegalIn part script.now [] steps.now) }
{
    let mut tally = no_tally(alloc, script)?;
    let mut start = 0;
    for number in 0..steps.len() {
        let step = &steps[number];
        let stretch = Stretch {
            script,
            steps: &steps[..number],
            event: step.event,
            marks: step.marks.as_slice(),
            all,
            start,
        };
        if !may_follow(alloc, part, &stretch, &mut tally)? {
            return Ok(false);
        }
        count_event(&mut tally, step.event);
        start += step.marks.len();
    }
    Ok(true)
}
