// The ends of sessions.
ghost use Rattle.std.specs.Prelude.{◌≡◌, ◌<◌, false, IfSome};
ghost use Rattle.std.specs.Option.{option_to_list};
ghost use Rattle.gx_law_runs.specs.Reached.{IsReached};
ghost use Rattle.gx_store.specs.Schedule.{ends, first_of};
ghost use Rattle.gx_store.specs.declared.event.Event.TheVariants.{End};
ghost use Rattle.gx_drive.specs.Agrees.{IsDue};

use gx_ids::SessionId;
use gx_store::Event;
use gx_world::World;

pub(crate) fn end_of(place: usize) -> Event
    requires { place < 256 }
    ensures { result ≡ End (record { 0 = place }) }
{
    Event::End(SessionId(place as u8))
}

// The first session that is to be ended.
pub(crate) fn first_end(world: &World) -> Option<Event>
    requires usable { world.now.spent ≡ false }
    requires reached { IsReached world.now.script world.now.run.steps }
    ensures first { option_to_list result ≡ first_of (ends world.now.script world.now.run.steps) }
    ensures due { IfSome result (IsDue world.now.script world.now.run.steps) }
{
    for place in 0..world.script().sessions.len() {
        let event = end_of(place);
        if world.can(&event) {
            return Some(event);
        }
    }
    None
}
