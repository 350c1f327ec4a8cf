// Who waits for whom at the nodes.
ghost use Rattle.std.specs.Prelude.{◌≡◌, ◌<◌, ◌+◌, ◌∷◌, false, Some, IfOk, length, map, slice_get};
ghost use Rattle.gx_coord.specs.Steps.{IsCoord};
ghost use Rattle.gx_locks.specs.Graphs.{graph_at};
ghost use Rattle.gx_rules.specs.Coordinators.{Coord as RuleCoord};
ghost use Rattle.gx_rules.specs.Segments.{Seg};
ghost use Rattle.gx_segment.specs.Steps.{IsSegment};
ghost use Rattle.gx_segment.specs.declared.segment.Segment.{Segment as OneSegment};
ghost use Rattle.gx_store.specs.Cancelled.{wait_graph};
ghost use Rattle.gx_store.specs.Points.{marks_in};
ghost use Rattle.gx_store.specs.Refusals.{the_coordinator};
ghost use Rattle.gx_store.specs.Schedule.{segments_of};
ghost use Rattle.gx_world.specs.Networks.{IsNetwork};

use crate::network::Network;
use gx_ids::Mem;
use gx_waits::LocalGraph;

// A graph for each node, from the coordinator on.
pub(crate) fn graphs(network: &Network) -> Mem<Vec<LocalGraph>>
    requires is { IsNetwork network.now }
    requires usable { network.now.spent ≡ false }
    ensures { IfOk result (λ graphs. graphs.items ≡ map (wait_graph (marks_in network.now.run.steps)) (the_coordinator ∷ segments_of network.now.script.value)) }
{
    let mut graphs = Vec::new(network.alloc);
    graphs.push(graph_here(network)?)?;
    for place in 0..network.segments.len() {
        graphs.push(graph_at_place(network, place)?)?;
    }
    Ok(graphs)
}

fn graph_here(network: &Network) -> Mem<LocalGraph>
    requires is { IsNetwork network.now }
    requires usable { network.now.spent ≡ false }
    ensures { IfOk result (λ graph. graph ≡ wait_graph (marks_in network.now.run.steps) the_coordinator) }
{
    graph_of_coordinator(network)
}

fn graph_of_coordinator(network: &Network) -> Mem<LocalGraph>
    ghost c: { RuleCoord }
    requires { IsCoord network.now.coord c }
    ensures { IfOk result (λ graph. graph ≡ graph_at c.locks) }
{
    network.coord.graph()
}

// The graph of the segment at a place.
fn graph_at_place(network: &Network, place: usize) -> Mem<LocalGraph>
    requires is { IsNetwork network.now }
    requires usable { network.now.spent ≡ false }
    requires inside { place < length network.now.segments.items }
    ensures { IfOk result (λ graph. graph ≡ wait_graph (marks_in network.now.run.steps) (record { 0 = place + 1 })) }
{
    graph_of_segment(network, place)
}

fn graph_of_segment(network: &Network, place: usize) -> Mem<LocalGraph>
    ghost s: { Seg }
    requires inside { place < length network.now.segments.items }
    requires is { (segment : OneSegment) → slice_get network.now.segments.items place ≡ Some segment → IsSegment segment s }
    ensures { IfOk result (λ graph. graph ≡ graph_at s.locks) }
{
    network.segments[place].graph()
}
