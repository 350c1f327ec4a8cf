ghost use Rattle.std.specs.Prelude.{◌≡◌, ◌↔◌, IfOk, Bool, map, Contains};
ghost use Rattle.gx_ids.specs.declared.ids.Gxid.{Gxid};
ghost use Rattle.gx_waits.specs.declared.placed_edge.PlacedEdge.{PlacedEdge};
ghost use Rattle.gx_waits.specs.Closed.{IsNamed, IsStuck};
ghost use Rattle.gx_waits.specs.Finish.{CanFinish};
ghost use Rattle.gx_waits.specs.LocalGraph.{edges_of};
ghost use Rattle.gx_detect.specs.Reduce.{kept_edges};

use crate::edges::{all_edges, left_in_graphs};
use crate::place::Aim;
use crate::reduced::Reduced;
use gx_ids::Mem;
use gx_waits::LocalGraph;
use std::alloc::Global;

/// The graphs with their stuck edges alone, in the order in which they stood: a solid edge goes where its holder waits for
/// nobody on any node, a dotted one where its holder waits for nobody on the edge's node. Edges of several graphs of one
/// node count as edges of one graph.
pub fn reduce(alloc: Global, graphs: &[LocalGraph]) -> Mem<Vec<LocalGraph>>
    ensures stuck { IfOk result (λ rest. (e : PlacedEdge) → Contains (edges_of rest.items) e ↔ IsStuck (edges_of graphs.now) e) }
    ensures order { IfOk result (λ rest. (test : PlacedEdge → Bool) × (rest.items ≡ map (kept_edges test) graphs.now)) }

    // Who is named in what is left can't finish, and everybody else can.
    ensures never { IfOk result (λ rest. (v : Gxid) → IsNamed (edges_of rest.items) v → CanFinish (edges_of graphs.now) v → ⊥) }
    ensures finish { IfOk result (λ rest. (v : Gxid) → (IsNamed (edges_of rest.items) v → ⊥) → CanFinish (edges_of graphs.now) v) }
{
    let reduced = Reduced::new(alloc, Aim::Stuck, all_edges(alloc, graphs)?)?;
    let rest = left_in_graphs(alloc, graphs, &reduced.rest.tally);
    drop(reduced);
    rest
}
