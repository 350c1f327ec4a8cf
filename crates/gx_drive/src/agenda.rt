ghost use Rattle.std.specs.Prelude.{◌≡◌, ◌++◌, ◌∷◌, [], List, false, filter, IfOk, OnOk, IfSome, option_copied};
ghost use Rattle.std.specs.List.{flat_map};
ghost use Rattle.std.specs.Option.{option_to_list};
ghost use Rattle.gx_agenda.specs.Awaited.{IsTold};
ghost use Rattle.gx_agenda.specs.Agrees.{Agree};
ghost use Rattle.gx_agenda.specs.Queued.{AreCounted};
ghost use Rattle.gx_law_runs.specs.Reached.{IsReached};
ghost use Rattle.gx_script.specs.declared.Script.{Script as OneScript};
ghost use Rattle.gx_store.specs.Groups.{enabled_in, lets};
ghost use Rattle.gx_store.specs.Language.{IsScript};
ghost use Rattle.gx_store.specs.declared.event.Event.TheVariants.{Receive};
ghost use Rattle.gx_store.specs.declared.run.Step.{Step as OneStep};
ghost use Rattle.gx_store.specs.Ordered.{IsLink};
ghost use Rattle.gx_store.specs.Schedule.{ends, first_of, left_on, resends, rounds, segments_of, starts};
ghost use Rattle.gx_drive.specs.Agrees.{IsAgreed, IsDue, moves_of};

use crate::detecting::{first_graph, next_round};
use crate::ends::first_end;
use crate::moves::first_move;
use gx_agenda::{
    Asked, Cursors, Queue, Quiet, Slots, first_start, note_slots, note_step, slots_of,
};
use gx_ids::{Mem, Node};
use gx_msg::Message;
use gx_script::Script;
use gx_store::{Event, StepView};
use gx_world::World;
use std::alloc::Global;

/// What a driver keeps of a run besides it: where each link stands, the next lines, the answers that are awaited, and where to begin to
/// look for a delivery.
#[derive(Drop)]
pub struct Agenda {
    pub cursors: Cursors,
    pub queue: Queue,
    pub asked: Asked,
    pub quiet: Quiet,
    pub slots: Option<Slots>,
}

impl Agenda {
    /// The agenda of a run without steps.
    pub fn new(alloc: Global, script: &Script) -> Mem<Agenda>
        requires { IsScript script.now }
        ensures { IfOk result (λ agenda. IsAgreed script.now [] agenda) }
    {
        let cursors = Cursors::new(alloc, script)?;
        let queue = Queue::new(alloc, script)?;
        let asked = Asked::new(alloc);
        let slots = slots_of(alloc, script, &queue)?;
        Ok(Agenda {
            cursors,
            queue,
            asked,
            quiet: Quiet::new(),
            slots,
        })
    }

    /// The first that is enabled; none where nothing is. While no round of the detector runs, it costs nothing more than without one
    /// until nothing else is enabled.
    pub fn first(&mut self, world: &World) -> Option<Event>
        requires usable { world.now.spent ≡ false }
        requires language { IsScript world.now.script }
        requires reached { IsReached world.now.script world.now.run.steps }
        requires agreed { IsAgreed world.now.script world.now.run.steps self.old }
        ensures first { option_to_list result ≡ first_of (enabled_in world.now.script world.now.run.steps) }
        ensures due { IfSome result (IsDue world.now.script world.now.run.steps) }
        ensures agreed { IsAgreed world.now.script world.now.run.steps self.new }
    {
        let waiting = self.asked.is_any_waiting();
        match first_move(&self.cursors, &mut self.quiet, world, waiting) {
            Some(event) => Some(event),
            None => self.asked_for(world),
        }
    }

    // What is sent again, where no node does anything by itself, or else what a session does.
    fn asked_for(&self, world: &World) -> Option<Event>
        requires usable { world.now.spent ≡ false }
        requires language { IsScript world.now.script }
        requires reached { IsReached world.now.script world.now.run.steps }
        requires agreed { IsAgreed world.now.script world.now.run.steps self.now }
        requires none { first_of (moves_of world.now.script world.now.run.steps) ≡ [] }
        ensures first { option_to_list result ≡ first_of (flat_map (resends world.now.script world.now.run.steps) (segments_of world.now.script)
            ++ filter (lets world.now.script world.now.run.steps) (starts world.now.script world.now.run.steps) ++ ends world.now.script world.now.run.steps
            ++ rounds world.now.script world.now.run.steps) }
        ensures due { IfSome result (IsDue world.now.script world.now.run.steps) }
    {
        match self.asked.first(first_graph(world)) {
            Some(event) => Some(event),
            None => self.begun(world),
        }
    }

    // The first line, or else what is last in order.
    fn begun(&self, world: &World) -> Option<Event>
        requires usable { world.now.spent ≡ false }
        requires language { IsScript world.now.script }
        requires reached { IsReached world.now.script world.now.run.steps }
        requires agreed { IsAgreed world.now.script world.now.run.steps self.now }
        ensures first { option_to_list result ≡ first_of (filter (lets world.now.script world.now.run.steps) (starts world.now.script world.now.run.steps) ++ ends world.now.script world.now.run.steps
            ++ rounds world.now.script world.now.run.steps) }
        ensures due { IfSome result (IsDue world.now.script world.now.run.steps) }
    {
        match first_start(&self.queue, &self.slots) {
            Some(session) => Some(Event::Start(session)),
            None => last(world),
        }
    }

    /// A step was done, and if it is the coordinator's, what its event received, if it received a message, is told.
    pub fn note(&mut self, script: &Script, step: &StepView<'_>, told: Option<&Message>) -> Mem<()>
        requires { IsScript script.now }
        ensures { OnOk result ((steps : List OneStep) → IsAgreed script.now steps self.old → IsDue script.now steps step.now.event
            → AreCounted (steps ++ step.now ∷ []) → IsTold steps step.now (option_copied told.entry)
            → IsAgreed script.now (steps ++ step.now ∷ []) self.new) }
    {
        deliver(&mut self.cursors, step);
        note_step(
            &mut self.quiet,
            &mut self.queue,
            &mut self.asked,
            &mut self.slots,
            step,
            told,
        )?;
        note_slots(&mut self.slots, script, &self.queue, step);
        Ok(())
    }
}

// The first end of a session, or else the next round.
fn last(world: &World) -> Option<Event>
    requires usable { world.now.spent ≡ false }
    requires language { IsScript world.now.script }
    requires reached { IsReached world.now.script world.now.run.steps }
    ensures first { option_to_list result ≡ first_of (ends world.now.script world.now.run.steps ++ rounds world.now.script world.now.run.steps) }
    ensures due { IfSome result (IsDue world.now.script world.now.run.steps) }
{
    match first_end(world) {
        Some(event) => Some(event),
        None => next_round(world),
    }
}

// The link of a receipt goes on.
fn deliver(cursors: &mut Cursors, step: &StepView<'_>)
    ensures { (script : OneScript) (steps : List OneStep) → Agree script steps cursors.old → IsDue script steps step.now.event → Agree script (steps ++ step.now ∷ []) cursors.new }
{
    match step.event() {
        Event::Receive { from, to, number } => go_on(cursors, from, to, number),
        _ => cursors.undelivered(),
    }
}

// The link goes on by a message of this number.
fn go_on(cursors: &mut Cursors, from: Node, to: Node, _number: u64)
    ensures { (script : OneScript) (steps : List OneStep) (step : OneStep) → Agree script steps cursors.old → IsLink script from to
        → first_of (left_on script steps from to) ≡ Receive from to _number ∷ [] → step.event ≡ Receive from to _number
        → Agree script (steps ++ step ∷ []) cursors.new }
{
    cursors.delivered(from, to);
}
