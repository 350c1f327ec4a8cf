// Whether the steps of a run are legal, one behind the other.
ghost use Rattle.std.specs.Prelude.{◌≡◌, ◌↔◌, ◌++◌, [], IfOk, IsTrue};
ghost use Rattle.gx_store.specs.Language.{IsScript};
ghost use Rattle.gx_store.specs.Legal.{AreLegalMarks, AreLegalSteps};
ghost use Rattle.gx_store.specs.Points.{marks_in};
ghost use Rattle.gx_store.specs.Runs.{IsLegalHistory};
ghost use Rattle.gx_legal.specs.Stretches.{MayBegin, MayFollow};
ghost use Rattle.gx_legal.specs.Tallies.{IsTally};

use crate::copying::{all_marks, all_steps};
use crate::events::{is_drawn, is_legal_event};
use crate::parts::is_legal_mark;
use crate::stretch::{Stretch, moment_at};
use crate::tally::{Tally, count_event, count_mark, no_tally};
use gx_ids::Mem;
use gx_script::Script;
use gx_store::{Mark, Run, Step};
use std::alloc::Global;

fn are_legal_marks(alloc: Global, stretch: &Stretch<'_>, tally: &mut Tally) -> Mem<bool>
    requires script { IsScript stretch.now.script.now }
    requires tally { IsTally stretch.now.script.now stretch.now.steps.now (marks_in stretch.now.steps.now) tally.old }
    ensures are { IfOk result (λ are. IsTrue are ↔ AreLegalMarks stretch.now.script.now stretch.now.steps.now stretch.now.event [] stretch.now.marks.now []) }
    ensures tally { IfOk result (λ are. IsTrue are → IsTally stretch.now.script.now stretch.now.steps.now (marks_in stretch.now.steps.now ++ stretch.now.marks.now) tally.new) }
{
    for number in 0..stretch.marks.len() {
        let mark = &stretch.marks[number];
        let moment = moment_at(stretch, number, &stretch.marks[number + 1..], tally);
        if !is_legal_mark(alloc, &moment, mark)? {
            return Ok(false);
        }
        count_mark(stretch.script, tally, mark)?;
    }
    Ok(true)
}

// Whether the step may begin so.
fn may_begin(stretch: &Stretch<'_>, tally: &Tally) -> bool
    requires { IsTally stretch.now.script.now stretch.now.steps.now (marks_in stretch.now.steps.now) tally.now }
    ensures { IsTrue result ↔ MayBegin stretch.now.script.now stretch.now.steps.now stretch.now.event stretch.now.marks.now }
{
    let moment = moment_at(stretch, 0, &[], tally);
    is_legal_event(&moment, stretch.marks) && is_drawn(&moment, stretch.marks)
}

fn may_follow(alloc: Global, stretch: &Stretch<'_>, tally: &mut Tally) -> Mem<bool>
    requires script { IsScript stretch.now.script.now }
    requires tally { IsTally stretch.now.script.now stretch.now.steps.now (marks_in stretch.now.steps.now) tally.old }
    ensures is { IfOk result (λ is. IsTrue is ↔ MayFollow stretch.now.script.now stretch.now.steps.now stretch.now.event stretch.now.marks.now) }
    ensures tally { IfOk result (λ is. IsTrue is → IsTally stretch.now.script.now stretch.now.steps.now (marks_in stretch.now.steps.now ++ stretch.now.marks.now) tally.new) }
{
    if !may_begin(stretch, tally) {
        return Ok(false);
    }
    are_legal_marks(alloc, stretch, tally)
}

fn are_legal_steps(alloc: Global, script: &Script, steps: &[Step], all: &[Mark]) -> Mem<bool>
    requires script { IsScript script.now }
    requires all { all.now ≡ marks_in steps.now }
    ensures { IfOk result (λ are. IsTrue are ↔ AreLegalSteps script.now [] steps.now) }
{
    let mut tally = no_tally(alloc, script)?;
    let mut start = 0;
    for number in 0..steps.len() {
        let step = &steps[number];
        let stretch = Stretch {
            script,
            steps: &steps[..number],
            event: step.event,
            marks: step.marks.as_slice(),
            all,
            start,
        };
        if !may_follow(alloc, &stretch, &mut tally)? {
            return Ok(false);
        }
        count_event(&mut tally, step.event);
        start += step.marks.len();
    }
    Ok(true)
}

/// Whether the run of the script is a legal history.
pub fn legal(alloc: Global, script: &Script, run: &Run) -> Mem<bool>
    requires { IsScript script.now }
    ensures { IfOk result (λ is. IsTrue is ↔ IsLegalHistory script.now run.now) }
{
    let own = all_steps(alloc, &run.steps)?;
    let steps = own.as_slice();
    let all = all_marks(alloc, steps)?;
    are_legal_steps(alloc, script, steps, &all)
}
