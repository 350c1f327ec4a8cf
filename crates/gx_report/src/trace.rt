// The text of a whole trace.
ghost use Rattle.std.specs.Prelude.{◌≡◌, ◌++◌, OnOk, IfOk};
ghost use Rattle.gx_report.specs.TraceText.{event_line, mark_line, step_lines, trace_of};

use crate::events::push_event;
use crate::marks::push_mark;
use crate::words::push_count_behind;
use gx_ids::Mem;
use gx_script::Script;
use gx_store::{Mark, Run, StepView};
use gx_text::{push_bytes, push_count};
use std::alloc::Global;

fn push_mark_line(alloc: Global, text: &mut Vec<u8>, script: &Script, mark: &Mark) -> Mem<()>
    ensures { OnOk result (text.new.items ≡ text.old.items ++ mark_line script.now mark.now) }
{
    push_bytes(text, b"  ")?;
    push_mark(alloc, text, script, mark)?;
    push_bytes(text, b"\n")
}

fn push_event_line(text: &mut Vec<u8>, script: &Script, step: &StepView<'_>) -> Mem<()>
    ensures { OnOk result (text.new.items ≡ text.old.items ++ event_line script.now step.now) }
{
    push_count(text, u128::from(step.stamp().clock))?;
    push_count_behind(text, b".", u128::from(step.stamp().node.0))?;
    push_bytes(text, b" ")?;
    push_event(text, script, step.event())?;
    push_bytes(text, b"\n")
}

fn push_step(alloc: Global, text: &mut Vec<u8>, script: &Script, step: &StepView<'_>) -> Mem<()>
    ensures { OnOk result (text.new.items ≡ text.old.items ++ step_lines script.now step.now) }
{
    push_event_line(text, script, step)?;
    for mark in step.marks() {
        push_mark_line(alloc, text, script, mark)?;
    }
    Ok(())
}

/// Adds the trace of a run behind a text.
pub fn push_trace(alloc: Global, text: &mut Vec<u8>, script: &Script, run: &Run) -> Mem<()>
    ensures { OnOk result (text.new.items ≡ text.old.items ++ trace_of script.now run.now) }
{
    push_count_behind(text, b"run ", run.steps.len() as u128)?;
    push_bytes(text, b"\n")?;
    for place in 0..run.steps.len() {
        push_step(alloc, text, script, &run.steps.at(place))?;
    }
    Ok(())
}

/// The trace of a run: the number of its steps, and then each step with its marks. A session or a table whose number the script
/// lacks is printed without a name.
pub fn trace_text(alloc: Global, script: &Script, run: &Run) -> Mem<Vec<u8>>
    ensures { IfOk result (λ text. text.items ≡ trace_of script.now run.now) }
{
    let mut text = Vec::new(alloc);
    push_trace(alloc, &mut text, script, run)?;
    Ok(text)
}
