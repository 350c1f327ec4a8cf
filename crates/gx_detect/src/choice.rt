ghost use Rattle.std.specs.Prelude.{◌≡◌, ◌↔◌, ◌++◌, ◌∷◌, List, [], IfOk, IfSome, IfNone, Contains};
ghost use Rattle.gx_waits.specs.declared.placed_edge.PlacedEdge.{PlacedEdge};
ghost use Rattle.gx_waits.specs.Closed.{IsStuck};
ghost use Rattle.gx_waits.specs.LocalGraph.{edges_of};
ghost use Rattle.gx_waits.specs.Victims.{AreVictims};
ghost use Rattle.gx_detect.specs.declared.place.Aim.TheVariants.{Core};
ghost use Rattle.gx_detect.specs.Core.{AreNamed, HaveClosedCores, IsCore};
ghost use Rattle.gx_detect.specs.Settled.{HasStuck, IsLargest, IsSettled, left_in};

use crate::edges::{all_edges, left_edges};
use crate::names::{gxids, sort_once, waiters_left};
use crate::place::Aim;
use crate::reduced::Reduced;
use gx_ids::{Gxid, Mem};
use gx_waits::{LocalGraph, PlacedEdge};
use std::alloc::Global;

/// The transactions that the core of the stuck edges names, rising: those who are left where everybody for whom nobody
/// waits is taken out with its edges, again and again.
pub fn core(alloc: Global, graphs: &[LocalGraph]) -> Mem<Vec<Gxid>>
    ensures { IfOk result (λ names. (core : List PlacedEdge) × IsCore (edges_of graphs.now) core × AreNamed core names.items) }
{
    let core = Reduced::new(alloc, Aim::Core, all_edges(alloc, graphs)?)?;
    let names = names_of(alloc, &core);
    drop(core);
    names
}

fn names_of(alloc: Global, core: &Reduced) -> Mem<Vec<Gxid>>
    requires { IsSettled Core core.now }
    ensures { IfOk result (λ names. AreNamed (left_in core.now) names.items) }
{
    let mut numbers = waiters_left(alloc, &core.edges, &core.rest.tally)?;
    sort_once(&mut numbers)?;
    gxids(alloc, &numbers)
}

/// The stuck edges among these.
pub(crate) fn stuck_of(alloc: Global, edges: Vec<PlacedEdge>) -> Mem<Vec<PlacedEdge>>
    ensures { IfOk result (λ stuck. (e : PlacedEdge) → Contains stuck.items e ↔ IsStuck edges.items e) }
{
    let reduced = Reduced::new(alloc, Aim::Stuck, edges)?;
    let left = left_edges(alloc, &reduced.edges, &reduced.rest.tally);
    drop(reduced);
    left
}

/// The transactions to abort so that nobody is stuck, in the order in which they are chosen: the greatest of the core,
/// then the greatest of the core that is left without it, and so on.
pub fn victims(alloc: Global, graphs: &[LocalGraph]) -> Mem<Vec<Gxid>>
    ensures victims { IfOk result (λ victims. AreVictims (edges_of graphs.now) victims.items) }
    ensures cores { IfOk result (λ victims. HaveClosedCores (edges_of graphs.now) victims.items) }
    ensures none { IfOk result (λ victims. victims.items ≡ [] ↔ ((e : PlacedEdge) → IsStuck (edges_of graphs.now) e → ⊥)) }
{
    victims_in(alloc, all_edges(alloc, graphs)?)
}

/// The same, of edges or of their stuck ones.
pub(crate) fn victims_in(alloc: Global, edges: Vec<PlacedEdge>) -> Mem<Vec<Gxid>>
    ensures victims { IfOk result (λ victims. (all : List PlacedEdge) → HasStuck all edges.items → AreVictims all victims.items) }
    ensures cores { IfOk result (λ victims. (all : List PlacedEdge) → HasStuck all edges.items → HaveClosedCores all victims.items) }
{
    let mut core = Reduced::new(alloc, Aim::Core, edges)?;
    let victims = in_turn(alloc, &mut core);
    drop(core);
    victims
}

// Once a core shrinks its names go, and none comes: so the next victim is the greatest that is left of the first names.
fn in_turn(alloc: Global, core: &mut Reduced) -> Mem<Vec<Gxid>>
    requires { IsSettled Core core.old }
    ensures victims { IfOk result (λ victims. (edges : List PlacedEdge) → IsLargest Core edges (left_in core.old) → AreVictims edges victims.items) }
    ensures cores { IfOk result (λ victims. (edges : List PlacedEdge) → IsLargest Core edges (left_in core.old) → HaveClosedCores edges victims.items) }
{
    let mut names = names_of(alloc, core)?;
    let mut victims = Vec::new(alloc);
    while let Some(name) = next_name(&mut names) {
        if core.is_named(name) {
            victims.push(name)?;
            core.cancel(name)?;
        }
    }
    Ok(victims)
}

// The last of the names.
fn next_name(names: &mut Vec<Gxid>) -> Option<Gxid>
    ensures name { IfSome result (λ name. names.old.items ≡ names.new.items ++ name ∷ []) }
    ensures none { IfNone result (names.old.items ≡ []) }
{
    names.pop()
}
