ghost use Rattle.std.specs.Prelude.{◌≡◌, ◌≢◌, ◌++◌, ◌∷◌, [], IfOk, OnOk, length};
ghost use Rattle.gx_detect.specs.Wants.{AreListed, IsListed, needing};

use crate::place::{Aim, Place};
use gx_ids::{Mem, Seq};
use gx_waits::PlacedEdge;
use std::alloc::Global;
use std::collections::BTreeMap;

/// Which edges need a place, by their places in the list of all edges.
#[derive(Drop)]
pub struct Wants {
    alloc: Global,
    aim: Aim,
    indexes: BTreeMap<Place, Seq<usize>>,
}

impl Wants {
    ghost use Rattle.gx_detect.specs.declared.place.Place.{Place};

    fn new(alloc: Global, aim: Aim) -> Wants
        ensures aim { result.aim ≡ aim }
        ensures none { (place : Place) → needing result place ≡ [] }
    {
        Wants {
            alloc,
            aim,
            indexes: BTreeMap::new(alloc),
        }
    }

    /// What these edges need.
    pub fn of(alloc: Global, aim: Aim, edges: &[PlacedEdge]) -> Mem<Wants>
        ensures aim { IfOk result (λ wants. wants.aim ≡ aim) }
        ensures listed { IfOk result (λ wants. AreListed edges.now (length edges.now) wants) }
    {
        let mut wants = Wants::new(alloc, aim);
        for index in 0..edges.len() {
            wants.list(&edges[index], index)?;
        }
        Ok(wants)
    }

    /// The edges that need the place.
    pub fn at(&self, place: Place) -> &[usize]
        ensures { result.now ≡ needing self.now place }
    {
        match self.indexes.get(&place) {
            Some(indexes) => indexes.as_slice(),
            None => &[],
        }
    }

    // One more edge.
    fn list(&mut self, edge: &PlacedEdge, index: usize) -> Mem<()>
        ensures { OnOk result (IsListed edge.now index self.old self.new) }
    {
        self.note(Place::needed_by(edge), index)?;
        match self.aim {
            Aim::Stuck => Ok(()),
            Aim::Core => {
                self.note(Place::Awaited(edge.edge.waiter), index)?;
                Ok(())
            }
        }
    }

    fn note(&mut self, place: Place, index: usize) -> Mem<()>
        ensures aim { self.new.aim ≡ self.old.aim }
        ensures there { OnOk result (needing self.new place ≡ needing self.old place ++ index ∷ []) }
        ensures elsewhere { OnOk result ((p : Place) → p ≢ place → needing self.new p ≡ needing self.old p) }
    {
        match self.indexes.get_mut(&place) {
            Some(indexes) => indexes.push(index),
            None => {
                let mut indexes = Seq::new(self.alloc);
                indexes.push(index)?;
                self.indexes.insert(place, indexes)?;
                Ok(())
            }
        }
    }
}
