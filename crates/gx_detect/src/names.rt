ghost use Rattle.std.specs.Prelude.{◌≡◌, ◌↔◌, ℕ, IfOk, OnOk, map, filter, Contains};
ghost use Rattle.std.specs.List.Sorted.{IsStrictlyIncreasing};
ghost use Rattle.gx_ids.specs.declared.ids.Gxid.{Gxid};
ghost use Rattle.gx_detect.specs.Core.{waiter_is_left};
ghost use Rattle.gx_detect.specs.Tally.{count_at};

use crate::tally::Tally;
use gx_ids::{Gxid, Mem};
use gx_waits::PlacedEdge;
use std::alloc::Global;

/// The numbers of the waiters that wait by the counts, edge by edge.
pub fn waiters_left(alloc: Global, edges: &[PlacedEdge], tally: &Tally) -> Mem<Vec<u64>>
    ensures { IfOk result (λ numbers. numbers.items ≡ map (λ e. e.edge.waiter.0) (filter (waiter_is_left (count_at tally.now)) edges.now)) }
{
    let mut numbers = Vec::new(alloc);
    for edge in edges {
        if is_waiter_left(edge, tally) {
            numbers.push(edge.edge.waiter.0)?;
        }
    }
    Ok(numbers)
}

#[tactic(auto, unfolding(crate::specs::Core::waiter_is_left))]
fn is_waiter_left(edge: &PlacedEdge, tally: &Tally) -> bool
    ensures { result ≡ waiter_is_left (count_at tally.now) edge.now }
{
    tally.waits(edge.edge.waiter)
}

/// Puts numbers in order, each once.
pub fn sort_once(numbers: &mut Vec<u64>) -> Mem<()>
    ensures same { OnOk result ((n : ℕ) → Contains numbers.new.items n ↔ Contains numbers.old.items n) }
    ensures rising { OnOk result (IsStrictlyIncreasing numbers.new.items) }
{
    numbers.sort()?;
    numbers.dedup();
    Ok(())
}

/// The transactions of these numbers.
pub fn gxids(alloc: Global, numbers: &[u64]) -> Mem<Vec<Gxid>>
    ensures { IfOk result (λ gxids. gxids.items ≡ map (λ n. record { 0 = n }) numbers.now) }
{
    let mut gxids = Vec::new(alloc);
    for number in numbers {
        gxids.push(Gxid(*number))?;
    }
    Ok(gxids)
}
