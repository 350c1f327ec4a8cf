ghost use Rattle.std.specs.Prelude.{◌≡◌, ◌++◌, IfOk, OnOk, map, filter};
ghost use Rattle.gx_waits.specs.LocalGraph.{edges_of};
ghost use Rattle.gx_detect.specs.Reduce.{is_left, kept_edges};
ghost use Rattle.gx_detect.specs.Tally.{count_at};

use crate::tally::Tally;
use gx_ids::{Mem, Seq};
use gx_waits::{LocalGraph, PlacedEdge};
use std::alloc::Global;

/// The edges of graphs, each with its node.
pub fn all_edges(alloc: Global, graphs: &[LocalGraph]) -> Mem<Vec<PlacedEdge>>
    ensures { IfOk result (λ edges. edges.items ≡ edges_of graphs.now) }
{
    let mut edges = Vec::new(alloc);
    for graph in graphs {
        add_edges(&mut edges, graph)?;
    }
    Ok(edges)
}

fn add_edges(edges: &mut Vec<PlacedEdge>, graph: &LocalGraph) -> Mem<()>
    ensures { OnOk result (edges.new.items ≡ edges.old.items ++ map (λ edge. record { node = graph.now.node; edge = edge }) graph.now.edges) }
{
    for edge in graph.edges.as_slice() {
        edges.push(PlacedEdge {
            node: graph.node,
            edge: *edge,
        })?;
    }
    Ok(())
}

/// The graphs with those of their edges that are left by the counts.
pub fn left_in_graphs(alloc: Global, graphs: &[LocalGraph], tally: &Tally) -> Mem<Vec<LocalGraph>>
    ensures { IfOk result (λ left. left.items ≡ map (kept_edges (is_left (count_at tally.now))) graphs.now) }
{
    let mut left = Vec::new(alloc);
    for graph in graphs {
        left.push(left_in_graph(alloc, graph, tally)?)?;
    }
    Ok(left)
}

fn left_in_graph(alloc: Global, graph: &LocalGraph, tally: &Tally) -> Mem<LocalGraph>
    ensures { IfOk result (λ left. left ≡ kept_edges (is_left (count_at tally.now)) graph.now) }
{
    let node = graph.node;
    let mut kept = Vec::new(alloc);
    for edge in graph.edges.as_slice() {
        if tally.leaves(&PlacedEdge { node, edge: *edge }) {
            kept.push(*edge)?;
        }
    }
    Ok(LocalGraph {
        node,
        edges: Seq::from_vec(kept),
    })
}

/// Those of the edges that are left by the counts.
pub fn left_edges(alloc: Global, edges: &[PlacedEdge], tally: &Tally) -> Mem<Vec<PlacedEdge>>
    ensures { IfOk result (λ left. left.items ≡ filter (is_left (count_at tally.now)) edges.now) }
{
    let mut left = Vec::new(alloc);
    for edge in edges {
        if tally.leaves(edge) {
            left.push(*edge)?;
        }
    }
    Ok(left)
}
