// What an event is at its node.
ghost use Rattle.std.specs.Prelude.{◌≡◌, true, List, Some};
ghost use Rattle.gx_rules.specs.Machine.{node_of};
ghost use Rattle.gx_store.specs.declared.run.Step.{Step};
ghost use Rattle.gx_world.specs.Coming.{coming, is_own};
ghost use Rattle.gx_world.specs.declared.letters.Letters.{Letters};

use gx_ids::Node;
use gx_store::{Event, NodeEvent};

// The node of an event.
pub(crate) fn event_node(event: Event) -> Node
    ensures { result ≡ node_of event }
{
    match event {
        Event::Receive {
            from: _,
            to,
            number: _,
        } => to,
        Event::Resume { node, gxid: _ } | Event::Restart(node) => node,
        _ => Node(0),
    }
}

// What a node does by itself.
pub(crate) fn own_event(event: Event) -> NodeEvent
    requires { is_own event ≡ true }
    ensures { (steps : List Step) (letters : Letters) → coming steps letters event ≡ Some result }
{
    match event {
        Event::Receive { .. } => unreachable!(),
        Event::Resume { node: _, gxid } => NodeEvent::Resume(gxid),
        Event::Start(session) => NodeEvent::Start(session),
        Event::End(session) => NodeEvent::End(session),
        Event::Resend { segment, gxid } => NodeEvent::Resend(segment, gxid),
        Event::Round => NodeEvent::Round,
        Event::Restart(_) => unreachable!(),
    }
}
