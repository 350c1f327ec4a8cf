ghost use Rattle.std.specs.Prelude.{◌≡◌, ◌≢◌, ◌<◌, ◌+◌, ◌^◌, IfOk, IsTrue, OnOk, count_by, nat_lt};

use crate::counts::Counts;
use crate::node_counts::NodeCounts;
use crate::place::Place;
use gx_ids::{Gxid, Mem};
use gx_waits::PlacedEdge;
use std::alloc::Global;

/// How many edges count in each place.
#[derive(Drop)]
pub struct Tally {
    anywhere: Counts,
    at: NodeCounts,
    awaited: Counts,
}

impl Tally {
    ghost use Rattle.gx_detect.specs.declared.place.Place.{Place};
    ghost use Rattle.gx_detect.specs.declared.place.Place.TheVariants.{Anywhere};
    ghost use Rattle.gx_detect.specs.Tally.{count_at};
    ghost use Rattle.gx_detect.specs.Place.{waits_in, bit};
    ghost use Rattle.gx_detect.specs.Reduce.{is_left};

    /// None.
    pub fn new(alloc: Global) -> Tally
        ensures { (place : Place) → count_at result place ≡ 0 }
    {
        Tally {
            anywhere: Counts::new(alloc),
            at: NodeCounts::new(alloc),
            awaited: Counts::new(alloc),
        }
    }

    /// How many count in the place.
    pub fn count(&self, place: Place) -> usize
        ensures { result ≡ count_at self.now place }
    {
        match place {
            Place::Anywhere(gxid) => self.anywhere.count(gxid),
            Place::At(node, gxid) => self.at.count(node, gxid),
            Place::Awaited(gxid) => self.awaited.count(gxid),
        }
    }

    /// One more counts in the place.
    pub fn raise(&mut self, place: Place) -> Mem<()>
        requires { count_at self.old place + 1 < 2 ^ 64 }
        ensures there { OnOk result (count_at self.new place ≡ count_at self.old place + 1) }
        ensures elsewhere { OnOk result ((p : Place) → p ≢ place → count_at self.new p ≡ count_at self.old p) }
    {
        match place {
            Place::Anywhere(gxid) => self.anywhere.raise(gxid),
            Place::At(node, gxid) => self.at.raise(node, gxid),
            Place::Awaited(gxid) => self.awaited.raise(gxid),
        }
    }

    /// One less counts in the place. The answer is how many are left.
    pub fn lower(&mut self, place: Place) -> usize
        requires { 0 < count_at self.old place }
        ensures there { count_at self.new place + 1 ≡ count_at self.old place }
        ensures elsewhere { (p : Place) → p ≢ place → count_at self.new p ≡ count_at self.old p }
        ensures left { result ≡ count_at self.new place }
    {
        match place {
            Place::Anywhere(gxid) => self.anywhere.lower(gxid),
            Place::At(node, gxid) => self.at.lower(node, gxid),
            Place::Awaited(gxid) => self.awaited.lower(gxid),
        }
    }

    /// Whether somebody waits where the edge needs it.
    #[tactic(auto, unfolding(crate::specs::Reduce::is_left))]
    pub fn leaves(&self, edge: &PlacedEdge) -> bool
        ensures { result ≡ is_left (count_at self.now) edge.now }
    {
        self.count(Place::needed_by(edge)) > 0
    }

    /// Counts an edge where its waiter waits, and where its holder is waited for.
    pub fn add(&mut self, edge: &PlacedEdge) -> Mem<()>
        requires { (place : Place) → count_at self.old place + 1 < 2 ^ 64 }
        ensures { OnOk result ((place : Place) → count_at self.new place ≡ count_at self.old place + bit (waits_in place edge.now)) }
    {
        self.raise(Place::Anywhere(edge.edge.waiter))?;
        self.raise(Place::At(edge.node, edge.edge.waiter))?;
        self.raise(Place::Awaited(edge.edge.holder))
    }

    /// Counts an edge no more.
    pub fn remove(&mut self, edge: &PlacedEdge)
        requires { (place : Place) → IsTrue (waits_in place edge.now) → 0 < count_at self.old place }
        ensures { (place : Place) → count_at self.new place + bit (waits_in place edge.now) ≡ count_at self.old place }
    {
        let _ = self.lower(Place::Anywhere(edge.edge.waiter));
        let _ = self.lower(Place::At(edge.node, edge.edge.waiter));
        let _ = self.lower(Place::Awaited(edge.edge.holder));
    }

    /// Whether the transaction waits.
    pub fn waits(&self, gxid: Gxid) -> bool
        ensures { result ≡ nat_lt 0 (count_at self.now (Anywhere gxid)) }
    {
        self.count(Place::Anywhere(gxid)) > 0
    }

    /// The count of some edges.
    pub fn of(alloc: Global, edges: &[PlacedEdge]) -> Mem<Tally>
        ensures { IfOk result (λ tally. (place : Place) → count_at tally place ≡ count_by (waits_in place) edges.now) }
    {
        let mut tally = Tally::new(alloc);
        for edge in edges {
            tally.add(edge)?;
        }
        Ok(tally)
    }
}
