// A step of a run in its place, and the points of it.
ghost use Rattle.std.specs.Prelude.{◌≡◌, ◌≤◌, ◌<◌, ◌+◌, ◌++◌, ◌^◌, length, take};
ghost use Rattle.gx_store.specs.Points.{marks_in};
ghost use Rattle.gx_legal.specs.Moments.{point_of};
ghost use Rattle.gx_legal.specs.Tallies.{IsTally};

use crate::moment::Moment;
use crate::tally::Tally;
use gx_script::Script;
use gx_store::{Event, Mark, Step};

/// A step of a run of a script, or its first marks: the steps before it, its event, these marks of it, and all marks of the run up to them
/// and beyond, with the place where its own begin.
#[derive(Clone, Copy)]
pub struct Stretch<'a> {
    pub script: &'a Script,
    pub steps: &'a [Step],
    pub event: Event,
    pub marks: &'a [Mark],
    pub all: &'a [Mark],
    pub start: usize,
    pub ghost begins: { start ≡ length (marks_in steps.now) },
    pub ghost among: { take (start + length marks.now) all.now ≡ marks_in steps.now ++ marks.now },
}

/// The point behind so many of the marks, and before these.
pub fn moment_at<'a, 't>(
    stretch: &Stretch<'a>,
    count: usize,
    later: &'a [Mark],
    tally: &'t Tally,
) -> Moment<'a, 't>
    requires count { count ≤ length stretch.now.marks.now }
    requires tally { IsTally stretch.now.script.now stretch.now.steps.now (marks_in stretch.now.steps.now ++ take count stretch.now.marks.now) tally.now }
    ensures script { result.script.now ≡ stretch.now.script.now }
    ensures room { length (marks_in stretch.now.steps.now ++ take count stretch.now.marks.now) + 1 < 2 ^ 64 }
    ensures point { point_of result ≡ record { steps = stretch.now.steps.now; event = stretch.now.event; earlier = take count stretch.now.marks.now; later = later.now } }
{
    Moment {
        script: stretch.script,
        steps: stretch.steps,
        event: stretch.event,
        earlier: &stretch.marks[..count],
        later,
        before: &stretch.all[..stretch.start + count],
        tally,
    }
}
