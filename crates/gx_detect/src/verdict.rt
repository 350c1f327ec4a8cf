ghost use Rattle.std.specs.Prelude.{◌≡◌, None, IfOk, fold};
ghost use Rattle.gx_waits.specs.LocalGraph.{edges_of};
ghost use Rattle.gx_waits.specs.Victims.{IsVerdict};
ghost use Rattle.gx_detect.specs.Deadlocks.{NamesVictims, naming};
ghost use Rattle.gx_detect.specs.Inactive.{lesser, with_waiter};

use crate::choice::{stuck_of, victims_in};
use crate::edges::all_edges;
use gx_ids::{Gxid, Mem, Seq};
use gx_waits::{LocalGraph, PlacedEdge, Verdict};
use std::alloc::Global;

// What these graphs and the active transactions come to.
pub(crate) fn verdict_of(alloc: Global, graphs: &[LocalGraph], active: &[Gxid]) -> Mem<Verdict>
    ensures verdict { IfOk result (λ verdict. IsVerdict (edges_of graphs.now) active.now verdict) }
    ensures victims { IfOk result (λ verdict. NamesVictims (edges_of graphs.now) verdict) }
{
    let stuck = stuck_of(alloc, all_edges(alloc, graphs)?)?;
    match least_inactive(&stuck, active) {
        Some(gxid) => Ok(Verdict::Dropped(gxid)),
        None => Ok(naming(victims_in(alloc, stuck)?)),
    }
}

// The verdict that names these, if there are any.
fn naming(victims: Vec<Gxid>) -> Verdict
    ensures { result ≡ naming victims.items }
{
    if victims.is_empty() {
        return Verdict::Nothing;
    }
    Verdict::Victims(Seq::from_vec(victims))
}

// The least waiter that isn't active.
fn least_inactive(edges: &[PlacedEdge], active: &[Gxid]) -> Option<Gxid>
    ensures { result ≡ fold (with_waiter active.now) None edges.now }
{
    let mut least = None;
    for edge in edges {
        if !active.contains(&edge.edge.waiter) {
            least = Some(lesser_of(least, edge.edge.waiter));
        }
    }
    least
}

// The lesser of two, of which the first may be missing.
fn lesser_of(seen: Option<Gxid>, gxid: Gxid) -> Gxid
    ensures { result ≡ lesser seen gxid }
{
    match seen {
        Some(other) if other < gxid => other,
        _ => gxid,
    }
}
