ghost use Rattle.std.specs.Prelude.{◌≡◌, ◌↔◌, IfOk, IsTrue, OnOk, List};
ghost use Rattle.gx_waits.specs.declared.placed_edge.PlacedEdge.{PlacedEdge};
ghost use Rattle.gx_waits.specs.Closed.{IsNamed};
ghost use Rattle.gx_detect.specs.declared.place.Aim.TheVariants.{Core};
ghost use Rattle.gx_detect.specs.Settled.{IsLargest, IsSettled, left_in};
ghost use Rattle.gx_detect.specs.Verdicts.{edges_without};

use crate::place::{Aim, Place};
use crate::rest::Rest;
use crate::settle::{follow, take_out_all};
use crate::wants::Wants;
use gx_ids::{Gxid, Mem};
use gx_waits::PlacedEdge;
use std::alloc::Global;

/// What a reduction leaves of edges. It can go on without one transaction after another.
#[derive(Drop)]
pub struct Reduced {
    pub edges: Vec<PlacedEdge>,
    pub rest: Rest,
    wants: Wants,
}

impl Reduced {
    pub fn new(alloc: Global, aim: Aim, edges: Vec<PlacedEdge>) -> Mem<Reduced>
        ensures settled { IfOk result (λ reduced. IsSettled aim reduced) }
        ensures same { IfOk result (λ reduced. reduced.edges.items ≡ edges.items) }
        ensures largest { IfOk result (λ reduced. IsLargest aim edges.items (left_in reduced)) }
    {
        let wants = Wants::of(alloc, aim, &edges)?;
        let mut rest = Rest::new(alloc, aim, &edges)?;
        follow(&edges, &wants, &mut rest)?;
        Ok(Reduced { edges, rest, wants })
    }

    /// Whether an edge that is left names the transaction.
    pub fn is_named(&self, gxid: Gxid) -> bool
        requires { IsSettled Core self.now }
        ensures { IsTrue result ↔ IsNamed (left_in self.now) gxid }
    {
        self.rest.tally.waits(gxid)
    }

    /// Goes on without the edges that name the transaction. Only those where it waits are taken out by themselves: the
    /// others have nobody then whom they need.
    pub fn cancel(&mut self, gxid: Gxid) -> Mem<()>
        requires { IsSettled Core self.old }
        ensures settled { OnOk result (IsSettled Core self.new) }
        ensures largest { OnOk result ((edges : List PlacedEdge) → IsLargest Core edges (left_in self.old) → IsLargest Core (edges_without gxid edges) (left_in self.new)) }
    {
        take_out_all(
            &self.edges,
            &mut self.rest,
            self.wants.at(Place::Awaited(gxid)),
        )?;
        follow(&self.edges, &self.wants, &mut self.rest)?;
        Ok(())
    }
}
