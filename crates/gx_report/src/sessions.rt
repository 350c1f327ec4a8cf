// The answers of each session, found by their places.
ghost use Rattle.std.specs.Prelude.{◌≡◌, ◌++◌, OnOk, length, slice_get};
ghost use Rattle.std.specs.List.{flat_map};
ghost use Rattle.gx_report.specs.Places.{ArePlaces, said_by, text_at};
ghost use Rattle.gx_report.specs.Text.{sessions_text};

use crate::places::{Place, answer_places};
use crate::report::push_line;
use gx_ids::{Mem, Seq};
use gx_store::{Mark, Run, StepView, Steps};
use gx_tree::Txt;
use std::alloc::Global;

/// Adds the answers of each session, in the order in which the sessions first appear in the script.
pub fn push_sessions(alloc: Global, text: &mut Vec<u8>, names: &[Txt], run: &Run) -> Mem<()>
    ensures { OnOk result (text.new.items ≡ text.old.items ++ sessions_text run.now.steps 0 names.now) }
{
    let steps = &run.steps;
    let index = answer_places(alloc, names.len(), steps)?;
    push_indexed(text, names, steps, index.as_slice())
}

// Adds the answers of each session from where they stand.
fn push_indexed(text: &mut Vec<u8>, names: &[Txt], steps: &Steps, index: &[Seq<Place>]) -> Mem<()>
    requires { ArePlaces (length names.now) steps.now index.now }
    ensures { OnOk result (text.new.items ≡ text.old.items ++ sessions_text steps.now 0 names.now) }
{
    for (session, name) in names.iter().enumerate() {
        push_places(text, name.as_slice(), steps, index[session].as_slice())?;
    }
    Ok(())
}

// Adds the answers at these places.
fn push_places(text: &mut Vec<u8>, name: &[u8], steps: &Steps, places: &[Place]) -> Mem<()>
    ensures { OnOk result (text.new.items ≡ text.old.items ++ flat_map (text_at name.now steps.now) places.now) }
{
    for place in places {
        push_place(text, name, steps, *place)?;
    }
    Ok(())
}

fn push_place(text: &mut Vec<u8>, name: &[u8], steps: &Steps, place: Place) -> Mem<()>
    ensures { OnOk result (text.new.items ≡ text.old.items ++ text_at name.now steps.now place) }
{
    match steps.get(place.step) {
        Some(step) => push_from_step(text, name, &step, place.mark),
        None => Ok(()),
    }
}

fn push_from_step(text: &mut Vec<u8>, name: &[u8], step: &StepView<'_>, mark: usize) -> Mem<()>
    ensures { OnOk result (text.new.items ≡ text.old.items ++ said_by name.now (slice_get step.now.marks mark)) }
{
    match step.marks().get(mark) {
        Some(
            Mark::Answer {
                session: _,
                number,
                answer,
            },
        ) => push_line(text, name, *number, answer),
        _ => Ok(()),
    }
}
