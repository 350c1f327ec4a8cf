ghost use Rattle.std.specs.Prelude.{◌≡◌, ◌++◌};
ghost use Rattle.gx_store.specs.Points.{marks_in};
ghost use Rattle.gx_legal.specs.Tallies.{IsTally};

use crate::tally::Tally;
use gx_script::Script;
use gx_store::{Event, Mark, Step};

/// A point of a run of a script: the steps before its own, the event of its own, the marks of that step before it and behind it, all marks
/// before it, and what these come to.
#[derive(Clone, Copy)]
pub struct Moment<'a, 't> {
    pub script: &'a Script,
    pub steps: &'a [Step],
    pub event: Event,
    pub earlier: &'a [Mark],
    pub later: &'a [Mark],
    pub before: &'a [Mark],
    pub tally: &'t Tally,
    pub ghost whole: { before.now ≡ marks_in steps.now ++ earlier.now },
    pub ghost told: { IsTally script.now steps.now before.now tally.now },
}
