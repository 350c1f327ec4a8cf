// The next deliveries of the links.
ghost use Rattle.std.specs.Prelude.{◌≡◌, false, IfSome};
ghost use Rattle.std.specs.List.{flat_map};
ghost use Rattle.std.specs.Option.{option_to_list};
ghost use Rattle.gx_agenda.specs.Agrees.{Agree};
ghost use Rattle.gx_agenda.specs.Quiet.{AreQuiet};
ghost use Rattle.gx_store.specs.Ordered.{IsLink};
ghost use Rattle.gx_store.specs.Refusals.{the_coordinator};
ghost use Rattle.gx_store.specs.Schedule.{first_of, left_on, segments_of};
ghost use Rattle.gx_drive.specs.Agrees.{IsDue};

use gx_agenda::{Cursors, Quiet};
use gx_ids::Node;
use gx_store::Event;
use gx_world::World;

// The next delivery of a link.
pub(crate) fn delivery(cursors: &Cursors, world: &World, from: Node, to: Node) -> Option<Event>
    requires usable { world.now.spent ≡ false }
    requires agreed { Agree world.now.script world.now.run.steps cursors.now }
    requires link { IsLink world.now.script from to }
    ensures first { option_to_list result ≡ first_of (left_on world.now.script world.now.run.steps from to) }
    ensures due { IfSome result (IsDue world.now.script world.now.run.steps) }
{
    let number = cursors.next(from, to, world.sent(from, to))?;
    Some(Event::Receive { from, to, number })
}

// The first delivery to the coordinator, by segment.
pub(crate) fn first_from(cursors: &Cursors, quiet: &mut Quiet, world: &World) -> Option<Event>
    requires usable { world.now.spent ≡ false }
    requires agreed { Agree world.now.script world.now.run.steps cursors.now }
    requires quiet { AreQuiet world.now.script world.now.run.steps quiet.old }
    ensures first { option_to_list result ≡ first_of (flat_map (λ segment. first_of (left_on world.now.script world.now.run.steps segment the_coordinator)) (segments_of world.now.script)) }
    ensures due { IfSome result (IsDue world.now.script world.now.run.steps) }
    ensures quiet { AreQuiet world.now.script world.now.run.steps quiet.new }
{
    for number in quiet.from..world.script().segments {
        let event = delivery(cursors, world, Node(number + 1), Node(0));
        if event.is_some() {
            return event;
        }
        quiet.from = number + 1;
    }
    None
}

// The first delivery from the coordinator, by segment.
pub(crate) fn first_to(cursors: &Cursors, quiet: &mut Quiet, world: &World) -> Option<Event>
    requires usable { world.now.spent ≡ false }
    requires agreed { Agree world.now.script world.now.run.steps cursors.now }
    requires quiet { AreQuiet world.now.script world.now.run.steps quiet.old }
    ensures first { option_to_list result ≡ first_of (flat_map (λ segment. first_of (left_on world.now.script world.now.run.steps the_coordinator segment)) (segments_of world.now.script)) }
    ensures due { IfSome result (IsDue world.now.script world.now.run.steps) }
    ensures quiet { AreQuiet world.now.script world.now.run.steps quiet.new }
{
    for number in quiet.to..world.script().segments {
        let event = delivery(cursors, world, Node(0), Node(number + 1));
        if event.is_some() {
            return event;
        }
        quiet.to = number + 1;
    }
    None
}
