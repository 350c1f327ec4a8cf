// What nodes do by themselves: they receive, and who waited resumes.
ghost use Rattle.std.specs.Prelude.{◌≡◌, [], false, IfSome};
ghost use Rattle.std.specs.List.{flat_map};
ghost use Rattle.std.specs.Option.{option_to_list};
ghost use Rattle.gx_ids.specs.declared.ids.Node.{Node as OneNode};
ghost use Rattle.gx_agenda.specs.Agrees.{Agree};
ghost use Rattle.gx_agenda.specs.Quiet.{AreQuiet};
ghost use Rattle.gx_store.specs.Ordered.{IsSegment};
ghost use Rattle.gx_store.specs.Points.{marks_in};
ghost use Rattle.gx_store.specs.Schedule.{at_segment, first_of, resumptions, segments_of};
ghost use Rattle.gx_drive.specs.Agrees.{IsDue, moves_of, resuming_of};

use crate::links::{delivery, first_from, first_to};
use gx_agenda::{Cursors, Quiet};
use gx_ids::Node;
use gx_store::Event;
use gx_world::World;

// Who resumes at a node.
pub(crate) fn resumption(world: &World, node: Node) -> Option<Event>
    requires usable { world.now.spent ≡ false }
    ensures first { option_to_list result ≡ resumptions (marks_in world.now.run.steps) node }
    ensures due { IfSome result (IsDue world.now.script world.now.run.steps) }
{
    let gxid = world.ready(node)?;
    Some(Event::Resume { node, gxid })
}

// A segment resumes, or else it receives.
pub(crate) fn segment_move(cursors: &Cursors, world: &World, segment: Node) -> Option<Event>
    requires usable { world.now.spent ≡ false }
    requires agreed { Agree world.now.script world.now.run.steps cursors.now }
    requires there { IsSegment world.now.script segment }
    ensures first { option_to_list result ≡ at_segment world.now.script world.now.run.steps segment }
    ensures due { IfSome result (IsDue world.now.script world.now.run.steps) }
{
    match resumption(world, segment) {
        Some(event) => Some(event),
        None => delivery(cursors, world, Node(0), segment),
    }
}

// What the first segment does that does anything.
fn first_segment_move(cursors: &Cursors, world: &World) -> Option<Event>
    requires usable { world.now.spent ≡ false }
    requires agreed { Agree world.now.script world.now.run.steps cursors.now }
    ensures first { option_to_list result ≡ first_of (flat_map (at_segment world.now.script world.now.run.steps) (segments_of world.now.script)) }
    ensures due { IfSome result (IsDue world.now.script world.now.run.steps) }
{
    for number in 1..world.script().segments + 1 {
        let event = segment_move(cursors, world, Node(number));
        if event.is_some() {
            return event;
        }
    }
    None
}

// What the first segment does, or else who resumes at the coordinator.
fn first_resuming(cursors: &Cursors, world: &World) -> Option<Event>
    requires usable { world.now.spent ≡ false }
    requires agreed { Agree world.now.script world.now.run.steps cursors.now }
    ensures first { option_to_list result ≡ first_of (resuming_of world.now.script world.now.run.steps) }
    ensures due { IfSome result (IsDue world.now.script world.now.run.steps) }
{
    match first_segment_move(cursors, world) {
        Some(event) => Some(event),
        None => resumption(world, Node(0)),
    }
}

// The same, where it is known whether somebody waits.
fn first_there(cursors: &Cursors, quiet: &mut Quiet, world: &World, waiting: bool) -> Option<Event>
    requires usable { world.now.spent ≡ false }
    requires agreed { Agree world.now.script world.now.run.steps cursors.now }
    requires quiet { AreQuiet world.now.script world.now.run.steps quiet.old }
    requires waiting { waiting ≡ false → (node : OneNode) → resumptions (marks_in world.now.run.steps) node ≡ [] }
    ensures first { option_to_list result ≡ first_of (resuming_of world.now.script world.now.run.steps) }
    ensures due { IfSome result (IsDue world.now.script world.now.run.steps) }
    ensures quiet { AreQuiet world.now.script world.now.run.steps quiet.new }
{
    if waiting {
        first_resuming(cursors, world)
    } else {
        first_to(cursors, quiet, world)
    }
}

// The first of all that nodes do by themselves, where it is known whether somebody waits.
pub(crate) fn first_move(
    cursors: &Cursors,
    quiet: &mut Quiet,
    world: &World,
    waiting: bool,
) -> Option<Event>
    requires usable { world.now.spent ≡ false }
    requires agreed { Agree world.now.script world.now.run.steps cursors.now }
    requires quiet { AreQuiet world.now.script world.now.run.steps quiet.old }
    requires waiting { waiting ≡ false → (node : OneNode) → resumptions (marks_in world.now.run.steps) node ≡ [] }
    ensures first { option_to_list result ≡ first_of (moves_of world.now.script world.now.run.steps) }
    ensures due { IfSome result (IsDue world.now.script world.now.run.steps) }
    ensures quiet { AreQuiet world.now.script world.now.run.steps quiet.new }
{
    match first_from(cursors, quiet, world) {
        Some(event) => Some(event),
        None => first_there(cursors, quiet, world, waiting),
    }
}
