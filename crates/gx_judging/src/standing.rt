// Whether the waits of a round's core stand where it is decided.
ghost use Rattle.std.specs.Prelude.{◌≡◌, ◌↔◌, ◌==◌, ◌&&◌, ◌++◌, true, Contains, filter, map, IfOk, OnOk, IsTrue};
ghost use Rattle.std.specs.List.{AllByRecursion, list_any};
ghost use Rattle.gx_waits.specs.Claim.{ahead, is_ahead, meets};
ghost use Rattle.gx_waits.specs.Graph.{same_edge};
ghost use Rattle.gx_waits.specs.LocalGraph.{edges_of};
ghost use Rattle.gx_waits.specs.Victims.{IsInCore};
ghost use Rattle.gx_waits.specs.declared.placed_edge.PlacedEdge.{PlacedEdge as OneEdge};
ghost use Rattle.gx_judging.specs.Standing.{StandsIfNamed, claims_at, is_edge as are_waits_of, is_edge_of as is_wait_of, is_edge_to as is_one_of};

use crate::locks::{Locks, claims_of};
use gx_detect::{core, reduce};
use gx_ids::{Gxid, Mem};
use gx_locks::{is_same_claim, is_same_object};
use gx_modes::conflicts;
use gx_waits::{Claim, Edge, LocalGraph, PlacedEdge};
use std::alloc::Global;

fn is_met(wait: &Claim, other: &Claim) -> bool
    ensures { result ≡ meets wait.now other.now }
{
    wait.gxid != other.gxid
        && is_same_object(&wait.object, &other.object)
        && conflicts(wait.mode, other.mode)
}

fn is_same_edge(a: &Edge, b: &Edge) -> bool
    ensures { result ≡ same_edge a.now b.now }
{
    a.waiter == b.waiter && a.holder == b.holder && a.dotted == b.dotted
}

fn is_edge_to(wait: &Claim, edge: &Edge, claim: &Claim) -> bool
    ensures { result ≡ is_one_of wait.now edge.now claim.now }
{
    is_met(wait, claim) && is_same_edge(edge, &wait.edge_to(claim))
}

fn is_own_met(wait: &Claim, claim: &Claim, hold: &Claim) -> bool
    ensures { result ≡ ((hold.now.gxid.0 == claim.now.gxid.0) && meets wait.now hold.now) }
{
    hold.gxid.0 == claim.gxid.0 && is_met(wait, hold)
}

// Whether a wait meets what the claim's own transaction holds.
fn meets_own(holds: &[Claim], claim: &Claim, wait: &Claim) -> bool
    ensures { result ≡ list_any (λ hold. (hold.gxid.0 == claim.now.gxid.0) && meets wait.now hold) holds.now }
{
    holds.iter().any(|hold| is_own_met(wait, claim, hold))
}

fn stands_ahead(holds: &[Claim], claim: &Claim, wait: &Claim) -> bool
    ensures { result ≡ is_ahead holds.now claim.now wait.now }
{
    !meets_own(holds, claim, wait)
}

fn meets_ahead(holds: &[Claim], waits: &[Claim], wait: &Claim, edge: &Edge) -> bool
    ensures { result ≡ list_any (is_one_of wait.now edge.now) (filter (is_ahead holds.now wait.now) (ahead wait.now waits.now)) }
{
    for other in waits {
        if is_same_claim(wait, other) {
            return false;
        }
        if stands_ahead(holds, wait, other) && is_edge_to(wait, edge, other) {
            return true;
        }
    }
    false
}

fn meets_held(holds: &[Claim], wait: &Claim, edge: &Edge) -> bool
    ensures { result ≡ list_any (is_one_of wait.now edge.now) holds.now }
{
    holds.iter().any(|claim| is_edge_to(wait, edge, claim))
}

#[tactic(auto, using(crate::proofs::Waits::in_both))]
fn is_edge_of(holds: &[Claim], waits: &[Claim], edge: &Edge, wait: &Claim) -> bool
    ensures { result ≡ is_wait_of holds.now waits.now edge.now wait.now }
{
    meets_held(holds, wait, edge) || meets_ahead(holds, waits, wait, edge)
}

fn is_edge(holds: &[Claim], waits: &[Claim], edge: &Edge) -> bool
    ensures { result ≡ are_waits_of holds.now waits.now edge.now }
{
    waits
        .iter()
        .any(|wait| is_edge_of(holds, waits, edge, wait))
}

fn is_named(named: &[Gxid], gxid: Gxid) -> bool
    ensures { IsTrue result ↔ Contains named.now gxid }
{
    named.contains(&gxid)
}

fn stands_if_named(named: &[Gxid], locks: &Locks, placed: &PlacedEdge) -> bool
    ensures { IsTrue result ↔ StandsIfNamed named.now locks.now placed.now }
{
    if !is_named(named, placed.edge.waiter) {
        return true;
    }
    let holds = claims_of(locks.holds.as_slice(), placed.node);
    let waits = claims_of(locks.waits.as_slice(), placed.node);
    is_edge(holds, waits, &placed.edge)
}

fn do_stand(named: &[Gxid], locks: &Locks, edges: &[PlacedEdge]) -> bool
    ensures { IsTrue result ↔ AllByRecursion (StandsIfNamed named.now locks.now) edges.now }
{
    for placed in edges {
        if !stands_if_named(named, locks, placed) {
            return false;
        }
    }
    true
}

fn add_edges(edges: &mut Vec<PlacedEdge>, graph: &LocalGraph) -> Mem<()>
    ensures { OnOk result (edges.new.items ≡ edges.old.items ++ map (λ edge. record { node = graph.now.node; edge = edge }) graph.now.edges) }
{
    for edge in graph.edges.as_slice() {
        edges.push(PlacedEdge {
            node: graph.node,
            edge: *edge,
        })?;
    }
    Ok(())
}

fn all_edges(alloc: Global, graphs: &[LocalGraph]) -> Mem<Vec<PlacedEdge>>
    ensures { IfOk result (λ edges. edges.items ≡ edges_of graphs.now) }
{
    let mut edges = Vec::new(alloc);
    for graph in graphs {
        add_edges(&mut edges, graph)?;
    }
    Ok(edges)
}

/// Whether each wait of the core of these graphs stands.
pub(crate) fn does_core_stand(alloc: Global, locks: &Locks, graphs: &[LocalGraph]) -> Mem<bool>
    ensures { IfOk result (λ does. IsTrue does ↔ ((e : OneEdge) → IsInCore (edges_of graphs.now) e → are_waits_of (claims_at locks.now.holds.items e.node.0) (claims_at locks.now.waits.items e.node.0) e.edge ≡ true)) }
{
    let named = core(alloc, graphs)?;
    let stuck = reduce(alloc, graphs)?;
    let waits = stuck.as_slice();
    let edges = all_edges(alloc, waits)?;
    let names = named.as_slice();
    let placed = edges.as_slice();
    let stand = do_stand(names, locks, placed);
    Ok(stand)
}
