// Whether a command that was under way earlier in the run did something.
ghost use Rattle.std.specs.Prelude.{◌≡◌, ◌↔◌, ◌++◌, [], IfOk, IsTrue, false};
ghost use Rattle.gx_store.specs.Language.{IsScript};
ghost use Rattle.gx_store.specs.Points.{marks_in};
ghost use Rattle.gx_legal.specs.Deeds.{IsByEarlierInStep, IsByEarlierStep, IsLateDoing, doing_of};
ghost use Rattle.gx_legal.specs.Moments.{point_of};
ghost use Rattle.gx_legal.specs.Stretches.{end_of};
ghost use Rattle.gx_legal.specs.Tallies.{IsTally};

use crate::deed::Deed;
use crate::moment::Moment;
use crate::seats::is_aborted_at;
use crate::stretch::{Stretch, moment_at};
use crate::tally::{Tally, count_event, count_mark, no_tally};
use crate::working::is_by_command;
use gx_ids::Mem;
use std::alloc::Global;

// At the end of the stretch or at an earlier point of it.
fn is_by_earlier_in_step(
    alloc: Global,
    stretch: &Stretch<'_>,
    tally: &mut Tally,
    deed: &Deed<'_>,
) -> Mem<bool>
    requires script { IsScript stretch.now.script.now }
    requires tally { IsTally stretch.now.script.now stretch.now.steps.now (marks_in stretch.now.steps.now) tally.old }
    ensures is { IfOk result (λ is. IsTrue is ↔ IsByEarlierInStep stretch.now.script.now (end_of stretch.now) (doing_of deed.now)) }
    ensures tally { IfOk result (λ is. is ≡ false → IsTally stretch.now.script.now stretch.now.steps.now (marks_in stretch.now.steps.now ++ stretch.now.marks.now) tally.new) }
{
    for count in 0..stretch.marks.len() {
        let mark = &stretch.marks[count];
        let moment = moment_at(stretch, count, &[], tally);
        if is_by_command(alloc, &moment, deed)? {
            return Ok(true);
        }
        count_mark(stretch.script, tally, mark)?;
    }
    let moment = moment_at(stretch, stretch.marks.len(), &[], tally);
    is_by_command(alloc, &moment, deed)
}

// At a point of an earlier step.
fn is_by_earlier_step(
    alloc: Global,
    moment: &Moment<'_, '_>,
    tally: &mut Tally,
    deed: &Deed<'_>,
) -> Mem<bool>
    requires script { IsScript moment.now.script.now }
    requires tally { IsTally moment.now.script.now [] [] tally.old }
    ensures is { IfOk result (λ is. IsTrue is ↔ IsByEarlierStep moment.now.script.now (point_of moment.now) (doing_of deed.now)) }
    ensures tally { IfOk result (λ is. is ≡ false → IsTally moment.now.script.now moment.now.steps.now (marks_in moment.now.steps.now) tally.new) }
{
    let mut start = 0;
    for number in 0..moment.steps.len() {
        let step = &moment.steps[number];
        let stretch = Stretch {
            script: moment.script,
            steps: &moment.steps[..number],
            event: step.event,
            marks: step.marks.as_slice(),
            all: moment.before,
            start,
        };
        if is_by_earlier_in_step(alloc, &stretch, tally, deed)? {
            return Ok(true);
        }
        count_event(tally, step.event);
        start += step.marks.len();
    }
    Ok(false)
}

// In the moment's own step.
fn is_by_earlier_here(
    alloc: Global,
    moment: &Moment<'_, '_>,
    tally: &mut Tally,
    deed: &Deed<'_>,
) -> Mem<bool>
    requires script { IsScript moment.now.script.now }
    requires tally { IsTally moment.now.script.now moment.now.steps.now (marks_in moment.now.steps.now) tally.old }
    ensures { IfOk result (λ is. IsTrue is ↔ IsByEarlierInStep moment.now.script.now (point_of moment.now) (doing_of deed.now)) }
{
    let stretch = Stretch {
        script: moment.script,
        steps: moment.steps,
        event: moment.event,
        marks: moment.earlier,
        all: moment.before,
        start: moment.before.len() - moment.earlier.len(),
    };
    is_by_earlier_in_step(alloc, &stretch, tally, deed)
}

/// Whether the deed is of a transaction that has aborted, and of a command of it that was under way at the point or at an earlier one.
pub fn is_late(alloc: Global, moment: &Moment<'_, '_>, deed: &Deed<'_>) -> Mem<bool>
    requires { IsScript moment.now.script.now }
    ensures { IfOk result (λ is. IsTrue is ↔ IsLateDoing moment.now.script.now (point_of moment.now) (doing_of deed.now)) }
{
    if !is_aborted_at(moment, deed.gxid) {
        return Ok(false);
    }
    let mut tally = no_tally(alloc, moment.script)?;
    match is_by_earlier_step(alloc, moment, &mut tally, deed) {
        Ok(false) => is_by_earlier_here(alloc, moment, &mut tally, deed),
        other => other,
    }
}
