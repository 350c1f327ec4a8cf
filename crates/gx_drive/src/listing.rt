// All that is enabled, point by point in the order of the schedule.
ghost use Rattle.std.specs.Prelude.{◌≡◌, ◌<◌, ◌++◌, ◌==◌, ◌∷◌, [], false, length, IfOk, OnOk, if◌then◌else◌};
ghost use Rattle.std.specs.List.{flat_map};
ghost use Rattle.std.specs.Option.{option_to_list};
ghost use Rattle.gx_agenda.specs.Agrees.{Agree};
ghost use Rattle.gx_law_runs.specs.Reached.{IsReached};
ghost use Rattle.gx_store.specs.Groups.{enabled_in};
ghost use Rattle.gx_store.specs.Language.{IsScript};
ghost use Rattle.gx_store.specs.Ordered.{IsLink, IsSegment};
ghost use Rattle.gx_store.specs.Refusals.{the_coordinator};
ghost use Rattle.gx_store.specs.Schedule.{at_segment, ends, first_of, is_quiet, is_round_running, is_to_end, left_on, resends, segments_of};
ghost use Rattle.gx_store.specs.declared.event.Event.TheVariants.{End};
ghost use Rattle.gx_drive.specs.Agrees.{IsAgreed};

use crate::agenda::Agenda;
use crate::detecting::{is_graph_awaited, is_round_running, next_round};
use crate::ends::end_of;
use crate::links::delivery;
use crate::moves::{resumption, segment_move};
use gx_agenda::{Cursors, push_starts};
use gx_ids::{Mem, Node};
use gx_store::Event;
use gx_world::World;
use std::alloc::Global;

impl Agenda {
    /// All that is enabled, in the order of the schedule. It looks once at each link and each node, at each answer that is awaited, once
    /// for each segment on whose links nothing is left, at each line that is its session's next, and at each session; and where the
    /// detector is on and no round runs, once more at each node until somebody waits.
    pub fn enabled(&self, alloc: Global, world: &World) -> Mem<Vec<Event>>
        requires usable { world.now.spent ≡ false }
        requires language { IsScript world.now.script }
        requires reached { IsReached world.now.script world.now.run.steps }
        requires agreed { IsAgreed world.now.script world.now.run.steps self.now }
        ensures { IfOk result (λ events. events.items ≡ enabled_in world.now.script world.now.run.steps) }
    {
        let mut events = Vec::new(alloc);
        push_from(&self.cursors, world, &mut events)?;
        push_segment_moves(&self.cursors, world, &mut events)?;
        push_option(resumption(world, Node(0)), &mut events)?;
        let running = is_round_running(world);
        push_resends(self, world, running, &mut events)?;
        push_starts(&self.queue, &self.slots, &mut events)?;
        push_ends(world, &mut events)?;
        push_option(next_round(world), &mut events)?;
        Ok(events)
    }
}

// The next deliveries to the coordinator.
fn push_from(cursors: &Cursors, world: &World, events: &mut Vec<Event>) -> Mem<()>
    requires usable { world.now.spent ≡ false }
    requires agreed { Agree world.now.script world.now.run.steps cursors.now }
    ensures { OnOk result (events.new.items ≡ events.old.items
        ++ flat_map (λ segment. first_of (left_on world.now.script world.now.run.steps segment the_coordinator)) (segments_of world.now.script)) }
{
    for number in 1..world.script().segments + 1 {
        push_option(delivery(cursors, world, Node(number), Node(0)), events)?;
    }
    Ok(())
}

// What each segment does.
fn push_segment_moves(cursors: &Cursors, world: &World, events: &mut Vec<Event>) -> Mem<()>
    requires usable { world.now.spent ≡ false }
    requires agreed { Agree world.now.script world.now.run.steps cursors.now }
    ensures { OnOk result (events.new.items ≡ events.old.items ++ flat_map (at_segment world.now.script world.now.run.steps) (segments_of world.now.script)) }
{
    for number in 1..world.script().segments + 1 {
        push_option(segment_move(cursors, world, Node(number)), events)?;
    }
    Ok(())
}

// An event, if there is one.
fn push_option(event: Option<Event>, events: &mut Vec<Event>) -> Mem<()>
    ensures { OnOk result (events.new.items ≡ events.old.items ++ option_to_list event) }
{
    if let Some(event) = event {
        events.push(event)?;
    }
    Ok(())
}

// What is sent again.
fn push_resends(agenda: &Agenda, world: &World, running: bool, events: &mut Vec<Event>) -> Mem<()>
    requires usable { world.now.spent ≡ false }
    requires language { IsScript world.now.script }
    requires reached { IsReached world.now.script world.now.run.steps }
    requires agreed { IsAgreed world.now.script world.now.run.steps agenda.now }
    requires running { running ≡ is_round_running world.now.run.steps }
    ensures { OnOk result (events.new.items ≡ events.old.items ++ flat_map (resends world.now.script world.now.run.steps) (segments_of world.now.script)) }
{
    for number in 1..world.script().segments + 1 {
        push_resends_to(agenda, world, Node(number), running, events)?;
    }
    Ok(())
}

// What is sent again to a segment: nothing while a message is left on its links.
fn push_resends_to(
    agenda: &Agenda,
    world: &World,
    segment: Node,
    running: bool,
    events: &mut Vec<Event>,
) -> Mem<()>
    requires usable { world.now.spent ≡ false }
    requires language { IsScript world.now.script }
    requires reached { IsReached world.now.script world.now.run.steps }
    requires agreed { IsAgreed world.now.script world.now.run.steps agenda.now }
    requires running { running ≡ is_round_running world.now.run.steps }
    requires there { IsSegment world.now.script segment }
    ensures { OnOk result (events.new.items ≡ events.old.items ++ resends world.now.script world.now.run.steps segment) }
{
    if is_quiet(&agenda.cursors, world, segment) {
        let graph = is_graph_awaited(world, segment, running);
        agenda.asked.push_resends(events, segment, graph)?;
    }
    Ok(())
}

// Whether nothing is left on a segment's links.
fn is_quiet(cursors: &Cursors, world: &World, segment: Node) -> bool
    requires usable { world.now.spent ≡ false }
    requires agreed { Agree world.now.script world.now.run.steps cursors.now }
    requires there { IsSegment world.now.script segment }
    ensures { result ≡ is_quiet world.now.script world.now.run.steps segment }
{
    is_done(cursors, world, Node(0), segment) && is_done(cursors, world, segment, Node(0))
}

// Whether nothing is left on a link.
fn is_done(cursors: &Cursors, world: &World, from: Node, to: Node) -> bool
    requires usable { world.now.spent ≡ false }
    requires agreed { Agree world.now.script world.now.run.steps cursors.now }
    requires link { IsLink world.now.script from to }
    ensures { result ≡ (length (left_on world.now.script world.now.run.steps from to) == 0) }
{
    let next = cursors.next(from, to, world.sent(from, to));
    next.is_none()
}

// The ends of sessions.
fn push_ends(world: &World, events: &mut Vec<Event>) -> Mem<()>
    requires usable { world.now.spent ≡ false }
    requires reached { IsReached world.now.script world.now.run.steps }
    ensures { OnOk result (events.new.items ≡ events.old.items ++ ends world.now.script world.now.run.steps) }
{
    for place in 0..world.script().sessions.len() {
        push_end(world, place, events)?;
    }
    Ok(())
}

// The end of a session, if it is to be ended.
fn push_end(world: &World, place: usize, events: &mut Vec<Event>) -> Mem<()>
    requires usable { world.now.spent ≡ false }
    requires language { IsScript world.now.script }
    requires reached { IsReached world.now.script world.now.run.steps }
    requires place { place < 256 }
    ensures { OnOk result (events.new.items ≡ events.old.items
        ++ (if is_to_end world.now.script world.now.run.steps (record { 0 = place }) then End (record { 0 = place }) ∷ [] else [])) }
{
    let event = end_of(place);
    if world.can(&event) {
        events.push(event)?;
    }
    Ok(())
}
