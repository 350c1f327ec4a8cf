// What is admitted.
ghost use Rattle.std.specs.Prelude.{◌≡◌, ◌≤◌, ◌-◌, true, false, Some, if◌then◌else◌, length, slice_get};
ghost use Rattle.gx_coord.specs.Steps.{IsCoord};
ghost use Rattle.gx_world.specs.Links.{link_in};
ghost use Rattle.gx_law_runs.specs.Replays.{coordinator_after, is_admitted};
ghost use Rattle.gx_rules.specs.AtCoordinator.{coord_can, is_segment};
ghost use Rattle.gx_rules.specs.Coordinators.{Coord as RuleCoord};
ghost use Rattle.gx_rules.specs.Segments.{Seg};
ghost use Rattle.gx_segment.specs.Steps.{IsSegment};
ghost use Rattle.gx_segment.specs.declared.segment.Segment.{Segment as OneSegment};
ghost use Rattle.gx_law_runs.specs.Links.{is_number};
ghost use Rattle.gx_locks.specs.Locks.{may_take};
ghost use Rattle.gx_store.specs.Journals.{is_same_node};
ghost use Rattle.gx_store.specs.Refusals.{the_coordinator};
ghost use Rattle.gx_store.specs.declared.event.Event.TheVariants.{Receive, Resume};
ghost use Rattle.gx_world.specs.Networks.{IsNetwork};

use crate::Letters;
use crate::network::Network;
use gx_ids::{Gxid, Node};
use gx_script::Script;
use gx_store::{Event, NodeEvent};

// Whether the event may be done now.
pub(crate) fn can(network: &Network, event: Event) -> bool
    requires is { IsNetwork network.now }
    requires usable { network.now.spent ≡ false }
    ensures { result ≡ is_admitted network.now.script.value network.now.run.steps event }
{
    match event {
        Event::Receive { from, to, number } => can_receive(network, from, to, number),
        Event::Start(session) => can_begin(network, NodeEvent::Start(session)),
        Event::End(session) => can_begin(network, NodeEvent::End(session)),
        Event::Resend { segment, gxid } => { can_begin(network, NodeEvent::Resend(segment, gxid)) }
        Event::Round => can_begin(network, NodeEvent::Round),
        Event::Resume { node, gxid } => can_resume(network, node, gxid),
        Event::Restart(_) => false,
    }
}

// Who waits at a node resumes there once its wait is ready.
fn can_resume(network: &Network, node: Node, gxid: Gxid) -> bool
    requires is { IsNetwork network.now }
    requires usable { network.now.spent ≡ false }
    ensures { result ≡ is_admitted network.now.script.value network.now.run.steps (Resume node gxid) }
{
    if node.0 == 0 {
        can_begin(network, NodeEvent::Resume(gxid))
    } else if node.0 <= network.script.segments {
        is_ready_there(network, node, gxid)
    } else {
        false
    }
}

fn is_ready_there(network: &Network, node: Node, gxid: Gxid) -> bool
    ghost s: { Seg }
    requires some { 1 ≤ node.0 }
    requires few { node.0 ≤ length network.now.segments.items }
    requires is { (segment : OneSegment) → slice_get network.now.segments.items (node.0 - 1) ≡ Some segment → IsSegment segment s }
    ensures { result ≡ may_take s.locks gxid }
{
    network.segments[usize::from(node.0) - 1].can_resume(gxid)
}

fn can_begin(network: &Network, there: NodeEvent) -> bool
    requires is { IsNetwork network.now }
    requires usable { network.now.spent ≡ false }
    ensures { result ≡ coord_can network.now.script.value (coordinator_after network.now.script.value network.now.run.steps) there }
{
    can_at_coordinator(network, there)
}

fn can_at_coordinator(network: &Network, there: NodeEvent) -> bool
    ghost c: { RuleCoord }
    requires usable { network.now.coord.spent ≡ false }
    requires is { IsCoord network.now.coord c }
    ensures { result ≡ coord_can network.now.coord.script.value c there }
{
    network.coord.can(&there)
}

// A message can be received that was sent to a segment, or by one to the coordinator.
fn can_receive(network: &Network, from: Node, to: Node, number: u64) -> bool
    requires is { IsNetwork network.now }
    requires usable { network.now.spent ≡ false }
    ensures { result ≡ is_admitted network.now.script.value network.now.run.steps (Receive from to number) }
{
    was_sent(&network.letters, from, to, number) && is_heard(&network.script, from, to)
}

fn is_heard(script: &Script, from: Node, to: Node) -> bool
    ensures { result ≡ (if is_same_node to the_coordinator then is_segment script.now from else true) }
{
    if to.0 == 0 {
        1 <= from.0 && from.0 <= script.segments
    } else {
        true
    }
}

fn was_sent(letters: &Letters, from: Node, to: Node, number: u64) -> bool
    ensures { result ≡ is_number number (length (link_in letters.now from to)) }
{
    1 <= number && number <= letters.count(from, to)
}
