ghost use Rattle.std.specs.Prelude.{◌≡◌, []};

use crate::event::Event;
use crate::mark::Mark;
use crate::steps::Steps;
use gx_ids::{Seq, Stamp};
use std::alloc::Global;

/// One event of one node, with what it did, in order.
#[derive(Drop)]
pub struct Step {
    pub stamp: Stamp,
    pub event: Event,
    pub marks: Seq<Mark>,
}

/// What was done, step by step.
#[derive(Drop)]
pub struct Run {
    pub steps: Steps,
}

impl Run {
    /// A run in which nothing was done.
    pub fn new(alloc: Global) -> Run
        ensures { result ≡ record { steps = [] } }
    {
        Run {
            steps: Steps::new(alloc),
        }
    }
}
