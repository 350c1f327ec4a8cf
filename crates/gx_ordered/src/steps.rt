// Whether the steps of a run are ordered, one behind the other.
ghost use Rattle.std.specs.Prelude.{◌≡◌, ◌↔◌, ◌<◌, ◌++◌, ◌∷◌, [], All, IfOk, IsTrue, List};
ghost use Rattle.gx_store.specs.declared.run.Step.{Step as OneStep};
ghost use Rattle.gx_store.specs.Ordered.{AreNumbered, AreOrdered, IsOrderedStep, clock_of};
ghost use Rattle.gx_ordered.specs.Links.{AreFiled, IsProgress, IsSentOnLink, MayStand};

use crate::events::is_event_at;
use crate::nodes::are_at_node;
use crate::progress::{Progress, note_clock, note_marks};
use gx_ids::{Mem, Stamp};
use gx_script::Script;
use gx_store::Step;
use std::alloc::Global;

fn is_rising(progress: &Progress, stamp: Stamp) -> bool
    ghost steps: { List OneStep }
    requires { IsProgress steps progress.now }
    ensures { IsTrue result ↔ (clock_of stamp.node steps < stamp.clock) }
{
    progress.clocks[usize::from(stamp.node.0)] < stamp.clock
}

// Whether the step may stand there, before its messages are looked at.
fn may_stand(script: &Script, progress: &Progress, step: &Step) -> bool
    ghost steps: { List OneStep }
    requires progress { IsProgress steps progress.now }
    requires filed { AreFiled steps }
    ensures { IsTrue result ↔ MayStand script.now steps step.now }
{
    is_rising(progress, step.stamp)
        && is_event_at(script, progress, step)
        && are_at_node(script, step.stamp.node, step.marks.as_slice())
}

// Notes what the step does; whether its messages have their numbers.
fn note_step(progress: &mut Progress, step: &Step) -> Mem<bool>
    ghost steps: { List OneStep }
    requires progress { IsProgress steps progress.old }
    requires links { All (IsSentOnLink step.now.stamp.node) step.now.marks }
    requires rising { 0 < step.now.stamp.clock }
    ensures numbers { IfOk result (λ are. IsTrue are ↔ AreNumbered step.now.stamp.node steps [] step.now.marks) }
    ensures progress { IfOk result (λ are. IsTrue are → IsProgress (steps ++ step.now ∷ []) progress.new) }
{
    note_clock(progress, step.stamp);
    note_marks(progress, step.stamp, step.marks.as_slice())
}

// Whether the step may follow those before it, and notes what it does.
fn may_follow(script: &Script, progress: &mut Progress, _before: &[Step], step: &Step) -> Mem<bool>
    ghost steps: { List OneStep }
    requires before { _before.now ≡ steps }
    requires progress { IsProgress steps progress.old }
    requires filed { AreFiled steps }
    ensures is { IfOk result (λ is. IsTrue is ↔ IsOrderedStep script.now steps step.now) }
    ensures progress { IfOk result (λ is. IsTrue is → IsProgress (steps ++ step.now ∷ []) progress.new) }
{
    if !may_stand(script, progress, step) {
        return Ok(false);
    }
    note_step(progress, step)
}

/// Whether the steps of a run of the script are ordered.
pub fn are_ordered(alloc: Global, script: &Script, steps: &[Step]) -> Mem<bool>
    ensures { IfOk result (λ are. IsTrue are ↔ AreOrdered script.now [] steps.now) }
{
    let mut progress = Progress::new(alloc)?;
    for number in 0..steps.len() {
        if !may_follow(script, &mut progress, &steps[..number], &steps[number])? {
            return Ok(false);
        }
    }
    Ok(true)
}
