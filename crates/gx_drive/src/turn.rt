// One turn: an event that is enabled is done.
ghost use Rattle.std.specs.Prelude.{◌≡◌, ◌<◌, ◌^◌, ◌++◌, ◌∷◌, [], List, Some, true, false, IfNone, IfSome, OnOk, length, map, option_copied};
ghost use Rattle.gx_agenda.specs.Awaited.{told_in};
ghost use Rattle.gx_store.specs.Journals.{is_same_node};
ghost use Rattle.gx_store.specs.Refusals.{the_coordinator};
ghost use Rattle.gx_store.specs.Schedule.{is_any_unfinished};
ghost use Rattle.gx_outside.specs.Shelves.{Shelf};
ghost use Rattle.gx_law_runs.specs.Reached.{IsReached};
ghost use Rattle.gx_law_runs.specs.Replays.{is_admitted};
ghost use Rattle.gx_store.specs.Groups.{enabled_in};
ghost use Rattle.gx_store.specs.Language.{IsScript};
ghost use Rattle.gx_store.specs.declared.run.Step.{Step as OneStep};
ghost use Rattle.gx_drive.specs.Agrees.{HasTurned, IsAgreed, IsDue, IsNoMore};
ghost use Rattle.gx_drive.specs.Ordered.{AreFailuresFew, AreHeld, AreHeldSoFar, IsFirst};

use crate::agenda::Agenda;
use gx_ids::{Mem, Node};
use gx_msg::Message;
use gx_outside::{Gate, Journal};
use gx_store::Event;
use gx_world::World;

// What is first, where a session is unfinished; none where nothing is enabled.
pub(crate) fn next_event(world: &World, agenda: &mut Agenda) -> Option<Event>
    requires usable { world.now.spent ≡ false }
    requires language { IsScript world.now.script }
    requires reached { IsReached world.now.script world.now.run.steps }
    requires agreed { IsAgreed world.now.script world.now.run.steps agenda.old }
    requires unfinished { is_any_unfinished world.now.script world.now.run.steps ≡ true }
    ensures first { IfSome result (IsFirst world.now.script world.now.run.steps) }
    ensures due { IfSome result (IsDue world.now.script world.now.run.steps) }
    ensures admitted { IfSome result (λ event. is_admitted world.now.script world.now.run.steps event ≡ true) }
    ensures stuck { IfNone result (enabled_in world.now.script world.now.run.steps ≡ []) }
    ensures agreed { IsAgreed world.now.script world.now.run.steps agenda.new }
{
    agenda.first(world)
}

// The message that the event of a step received, if the step is the coordinator's.
fn told(world: &World, node: Node, event: Event) -> Option<&Message>
    requires usable { world.now.spent ≡ false }
    ensures { is_same_node node the_coordinator ≡ true → option_copied result ≡ told_in world.now.run.steps event }
{
    if node == Node(0) {
        received(world, event)
    } else {
        None
    }
}

// The message that an event received.
fn received(world: &World, event: Event) -> Option<&Message>
    requires usable { world.now.spent ≡ false }
    ensures { option_copied result ≡ told_in world.now.run.steps event }
{
    match event {
        Event::Receive { from, to, number } => world.message(from, to, number),
        _ => None,
    }
}

// The agenda takes what the last step did.
fn note(world: &World, agenda: &mut Agenda) -> Mem<()>
    requires usable { world.now.spent ≡ false }
    requires language { IsScript world.now.script }
    requires reached { IsReached world.now.script world.now.run.steps }
    requires room { length world.now.run.steps < 2 ^ 62 }
    ensures { OnOk result ((steps : List OneStep) (step : OneStep) → world.now.run.steps ≡ steps ++ step ∷ []
        → IsAgreed world.now.script steps agenda.old → IsDue world.now.script steps step.event → is_admitted world.now.script steps step.event ≡ true
        → IsReached world.now.script steps → IsAgreed world.now.script world.now.run.steps agenda.new) }
{
    match world.run().steps.last() {
        Some(step) => agenda.note(
            world.script(),
            &step,
            told(world, step.stamp().node, step.event()),
        ),
        None => Ok(()),
    }
}

// Does an event that is due.
pub(crate) fn turn<J: Journal, G: Gate>(
    world: &mut World,
    agenda: &mut Agenda,
    journals: &mut [J],
    gate: &G,
    event: Event,
) -> Mem<()>
    requires usable { world.old.spent ≡ false }
    requires language { IsScript world.old.script }
    requires reached { IsReached world.old.script world.old.run.steps }
    requires agreed { IsAgreed world.old.script world.old.run.steps agenda.old }
    requires due { IsDue world.old.script world.old.run.steps event }
    requires admitted { is_admitted world.old.script world.old.run.steps event ≡ true }
    requires journals { length journals.old ≡ 17 }
    requires room { length world.old.run.steps < 2 ^ 40 }
    ensures script { world.new.script ≡ world.old.script }
    ensures done { IsNoMore event world.old.run.steps world.new.run.steps }
    ensures failures { (start : List Shelf) → AreFailuresFew world.old.run.steps start (map J.shelf journals.old)
        → AreFailuresFew world.new.run.steps start (map J.shelf journals.new) }
    ensures held { AreHeld world.old.run.steps (map J.shelf journals.old) → AreHeldSoFar world.new.run.steps (map J.shelf journals.new) }
    ensures turned { OnOk result (HasTurned world.old world.new agenda.new (map J.shelf journals.old)
        (map J.shelf journals.new)) }
{
    world.step(event, journals, gate)?;
    note(world, agenda)
}
