ghost use Rattle.std.specs.Prelude.{◌≡◌, ◌≤◌, ◌<◌, ◌+◌, ◌++◌, ◌∷◌, [], IfOk, OnOk, get_or, length, map};
ghost use Rattle.gx_law_merge.specs.Merge.{AreApart, DoFit, IsMergeOf};
ghost use Rattle.gx_law_runs.specs.Reached.{IsReached};
ghost use Rattle.gx_store.specs.declared.run.Step.{Step as OneStep};

use crate::front::earliest;
use gx_copies::push_marks;
use gx_ids::{Mem, Node};
use gx_script::Script;
use gx_store::{Run, Steps};
use std::alloc::Global;

/// What one node did, in order.
#[derive(Drop)]
pub struct NodeHistory {
    pub node: Node,
    pub steps: Steps,
}

/// The run that histories of this script make which fit together, one of each node from 0 on: their steps by clock, and those of one
/// clock by node.
pub fn merge(alloc: Global, script: &Script, histories: &[NodeHistory]) -> Mem<Run>
    requires segments { 1 ≤ script.now.segments }
    requires fit { DoFit script.now (map (λ h. h.steps) histories.now) }
    ensures merge { IfOk result (λ run. IsMergeOf (map (λ h. h.steps) histories.now) run.steps) }
    ensures reached { IfOk result (λ run. IsReached script.now run.steps) }
{
    let _script = script;
    let steps = merged(alloc, histories)?;
    Ok(Run { steps })
}

fn merged(alloc: Global, histories: &[NodeHistory]) -> Mem<Steps>
    requires { AreApart (map (λ h. h.steps) histories.now) }
    ensures { IfOk result (λ steps. IsMergeOf (map (λ h. h.steps) histories.now) steps) }
{
    let mut fronts = vec![in alloc; 0; histories.len()]?;
    let mut steps = Steps::new(alloc);
    while let Some(front) = earliest(histories, fronts.as_slice()) {
        let next = fronts[front.place];
        fronts[front.place] = push_next(alloc, &mut steps, &histories[front.place].steps, next)?;
    }
    Ok(steps)
}

// Adds a copy of the step at a place, and tells the next place.
fn push_next(alloc: Global, steps: &mut Steps, history: &Steps, place: usize) -> Mem<usize>
    requires { place < length history.now }
    ensures next { IfOk result (λ next. next ≡ place + 1) }
    ensures steps { OnOk result ((other : OneStep) → steps.new ≡ steps.old ++ get_or history.now place other ∷ []) }
{
    let inside = place < history.len();
    prove!(inside);
    let step = history.at(place);
    let mut marks = steps.blank(alloc);
    push_marks(alloc, &mut marks, step.marks())?;
    steps.push(step.stamp(), step.event(), marks)?;
    Ok(place + 1)
}
