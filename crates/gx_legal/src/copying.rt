// The marks and steps of a run as lists of their own.
ghost use Rattle.std.specs.Prelude.{◌≡◌, IfOk};
ghost use Rattle.gx_store.specs.Points.{marks_in};

use gx_copies::push_marks;
use gx_ids::{Mem, Seq};
use gx_store::{Mark, Step, StepView, Steps};
use std::alloc::Global;

/// The marks of steps as one list.
pub fn all_marks(alloc: Global, steps: &[Step]) -> Mem<Vec<Mark>>
    ensures { IfOk result (λ all. all.items ≡ marks_in steps.now) }
{
    let mut all = Vec::new(alloc);
    for step in steps {
        push_marks(alloc, &mut all, step.marks.as_slice())?;
    }
    Ok(all)
}

// A step of its own.
fn step_copy(alloc: Global, step: &StepView<'_>) -> Mem<Step>
    ensures { IfOk result (λ copy. copy ≡ step.now) }
{
    let mut marks = Vec::new(alloc);
    push_marks(alloc, &mut marks, step.marks())?;
    Ok(Step {
        stamp: step.stamp(),
        event: step.event(),
        marks: Seq::from_vec(marks),
    })
}

/// The steps of a run as a list of their own.
pub fn all_steps(alloc: Global, steps: &Steps) -> Mem<Vec<Step>>
    ensures { IfOk result (λ all. all.items ≡ steps.now) }
{
    let mut all = Vec::new(alloc);
    for place in 0..steps.len() {
        all.push(step_copy(alloc, &steps.at(place))?)?;
    }
    Ok(all)
}
