ghost use Rattle.std.specs.Prelude.{◌≡◌, ◌<◌, ◌≤◌, ◌+◌, ◌++◌, ◌∷◌, [], true, length, slice_get, Some, Contains, IfOk, IfSome, IfNone, OnOk};
ghost use Rattle.gx_detect.specs.Place.{Needs};
ghost use Rattle.gx_detect.specs.Reducing.{AreNoted, AreTakenOut, IsCounted, rest_of};

use crate::place::{Aim, Place};
use crate::tally::Tally;
use gx_ids::Mem;
use gx_waits::PlacedEdge;
use std::alloc::Global;

/// Which edges are left during a reduction, by their places in the list of all edges.
#[derive(Drop)]
pub struct Rest {
    /// Whether the edge is left.
    pub marks: Vec<bool>,
    /// Where the edges that are left count.
    pub tally: Tally,
    /// Places where none counts any more, whose edges are to be looked at again.
    pub freed: Vec<Place>,
}

impl Rest {
    ghost use Rattle.gx_detect.specs.declared.place.Place.{Place};
    ghost use Rattle.gx_detect.specs.Tally.{count_at};

    /// All edges.
    pub fn new(alloc: Global, aim: Aim, edges: &[PlacedEdge]) -> Mem<Rest>
        ensures counted { IfOk result (λ rest. IsCounted edges.now rest) }
        ensures all { IfOk result (λ rest. rest_of edges.now rest ≡ edges.now) }
        ensures noted { IfOk result (λ rest. AreNoted aim edges.now rest) }
    {
        let mut rest = Rest {
            marks: vec![in alloc; true; edges.len()]?,
            tally: Tally::of(alloc, edges)?,
            freed: Vec::new(alloc),
        };
        for edge in edges {
            rest.free_needs(aim, edge)?;
        }
        Ok(rest)
    }

    // Notes where the edge lacks what it needs.
    fn free_needs(&mut self, aim: Aim, edge: &PlacedEdge) -> Mem<()>
        ensures marks { self.new.marks ≡ self.old.marks }
        ensures tally { self.new.tally ≡ self.old.tally }
        ensures still_freed { OnOk result ((p : Place) → Contains self.old.freed.items p → Contains self.new.freed.items p) }
        ensures freed { OnOk result ((p : Place) → Needs aim edge.now p → count_at self.old.tally p ≡ 0 → Contains self.new.freed.items p) }
    {
        self.free(Place::needed_by(edge))?;
        match aim {
            Aim::Stuck => Ok(()),
            Aim::Core => self.free(Place::Awaited(edge.edge.waiter)),
        }
    }

    /// Takes an edge out, if it is left.
    pub fn take_out(&mut self, edges: &[PlacedEdge], index: usize) -> Mem<()>
        requires index { index < length edges.now }
        requires counted { IsCounted edges.now self.old }
        ensures counted { OnOk result (IsCounted edges.now self.new) }
        ensures out { OnOk result (AreTakenOut edges.now (index ∷ []) self.old self.new) }
    {
        if self.marks[index] {
            self.remove(edges, index)?;
        }
        Ok(())
    }

    fn remove(&mut self, edges: &[PlacedEdge], index: usize) -> Mem<()>
        requires index { index < length edges.now }
        requires left { slice_get self.old.marks.items index ≡ Some true }
        requires counted { IsCounted edges.now self.old }
        ensures counted { OnOk result (IsCounted edges.now self.new) }
        ensures out { OnOk result (AreTakenOut edges.now (index ∷ []) self.old self.new) }
    {
        let edge = edges[index];
        self.marks[index] = false;
        self.tally.remove(&edge);
        self.free(Place::Anywhere(edge.edge.waiter))?;
        self.free(Place::At(edge.node, edge.edge.waiter))?;
        self.free(Place::Awaited(edge.edge.holder))?;
        Ok(())
    }

    /// A freed place that wasn't looked at yet.
    pub fn next_freed(&mut self) -> Option<Place>
        ensures marks { self.new.marks ≡ self.old.marks }
        ensures tally { self.new.tally ≡ self.old.tally }
        ensures place { IfSome result (λ place. self.old.freed.items ≡ self.new.freed.items ++ place ∷ []) }
        ensures none { IfNone result (self.old.freed.items ≡ []) }
    {
        self.freed.pop()
    }

    fn free(&mut self, place: Place) -> Mem<()>
        ensures marks { self.new.marks ≡ self.old.marks }
        ensures tally { self.new.tally ≡ self.old.tally }
        ensures still_freed { OnOk result ((p : Place) → Contains self.old.freed.items p → Contains self.new.freed.items p) }
        ensures there { OnOk result (count_at self.old.tally place ≡ 0 → Contains self.new.freed.items place) }
        ensures one { OnOk result (length self.new.freed.items ≤ length self.old.freed.items + 1) }
    {
        if self.tally.count(place) == 0 {
            self.freed.push(place)?;
        }
        Ok(())
    }
}
