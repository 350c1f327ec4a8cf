// Who waits at the nodes.
ghost use Rattle.std.specs.Prelude.{◌≡◌, ◌≤◌, ◌<◌, ◌-◌, ◌==◌, not, false, None, Some, length, option_map, slice_get};
ghost use Rattle.std.specs.List.{list_any};
ghost use Rattle.std.specs.Option.{option_to_list};
ghost use Rattle.gx_coord.specs.Steps.{IsCoord};
ghost use Rattle.gx_locks.specs.Locks.{next_ready};
ghost use Rattle.gx_rules.specs.Coordinators.{Coord as RuleCoord};
ghost use Rattle.gx_rules.specs.Segments.{Seg};
ghost use Rattle.gx_segment.specs.Steps.{IsSegment};
ghost use Rattle.gx_segment.specs.declared.segment.Segment.{Segment as OneSegment};
ghost use Rattle.gx_store.specs.Points.{marks_in};
ghost use Rattle.gx_store.specs.Schedule.{is_any_wait, resumptions, segments_of};
ghost use Rattle.gx_store.specs.declared.event.Event.TheVariants.{Resume};
ghost use Rattle.gx_world.specs.Networks.{IsNetwork};
ghost use Rattle.gx_world.specs.Waiting.{waits_there};

use crate::network::Network;
use gx_ids::{Gxid, Node};

// The least transaction whose wait at a node is ready.
pub(crate) fn ready(network: &Network, node: Node) -> Option<Gxid>
    requires is { IsNetwork network.now }
    requires usable { network.now.spent ≡ false }
    ensures { option_to_list (option_map (Resume node) result) ≡ resumptions (marks_in network.now.run.steps) node }
{
    if node.0 == 0 {
        ready_here(network)
    } else if node.0 <= network.script.segments {
        ready_there(network, node)
    } else {
        None
    }
}

fn ready_here(network: &Network) -> Option<Gxid>
    ghost c: { RuleCoord }
    requires { IsCoord network.now.coord c }
    ensures { result ≡ next_ready c.locks }
{
    network.coord.ready()
}

fn ready_there(network: &Network, node: Node) -> Option<Gxid>
    ghost s: { Seg }
    requires some { 1 ≤ node.0 }
    requires few { node.0 ≤ length network.now.segments.items }
    requires is { (segment : OneSegment) → slice_get network.now.segments.items (node.0 - 1) ≡ Some segment → IsSegment segment s }
    ensures { result ≡ next_ready s.locks }
{
    network.segments[usize::from(node.0) - 1].ready()
}

// Whether some transaction waits at some node.
pub(crate) fn any_wait(network: &Network) -> bool
    requires is { IsNetwork network.now }
    requires usable { network.now.spent ≡ false }
    ensures { result ≡ is_any_wait network.now.script.value (marks_in network.now.run.steps) }
{
    any_wait_here(network) || any_wait_there(network)
}

fn any_wait_here(network: &Network) -> bool
    ghost c: { RuleCoord }
    requires { IsCoord network.now.coord c }
    ensures { result ≡ not (length c.locks.waits == 0) }
{
    network.coord.any_wait()
}

fn any_wait_there(network: &Network) -> bool
    requires is { IsNetwork network.now }
    requires usable { network.now.spent ≡ false }
    ensures { result ≡ list_any (waits_there network.now.script.value network.now.run.steps) (segments_of network.now.script.value) }
{
    for place in 0..network.segments.len() {
        if any_wait_at(network, place) {
            return true;
        }
    }
    false
}

// Whether some transaction waits at the segment of a place.
fn any_wait_at(network: &Network, place: usize) -> bool
    ghost s: { Seg }
    requires inside { place < length network.now.segments.items }
    requires is { (segment : OneSegment) → slice_get network.now.segments.items place ≡ Some segment → IsSegment segment s }
    ensures { result ≡ not (length s.locks.waits == 0) }
{
    network.segments[place].any_wait()
}
