ghost use Rattle.std.specs.Prelude.{◌≡◌, ◌<◌, ◌+◌, ◌-◌, ◌++◌, ◌∷◌, [], ◌==◌, ◌&&◌, length, filter, not, OnOk, OnErr};
ghost use Rattle.gx_locks.specs.Holds.{same_hold};
ghost use Rattle.gx_locks.specs.HoldLists.{held};

use crate::hold::Hold;
use crate::hold_list::HoldList;
use gx_ids::{Mem, OutOfMemory};
use std::alloc::Global;
use std::marker::Model;
use std::mem;

/// The holds under one key, and for how many more there is room.
#[derive(Drop)]
pub struct Shelf {
    holds: HoldList,
    places: usize,
}

impl Model for Shelf {
    ghost use Rattle.std.specs.Prelude.{◌≤◌};
    ghost use Rattle.gx_locks.specs.HoldLists.{held, spare};
    ghost use Rattle.gx_locks.specs.Rack.{Rack};

    ghost Value = { Rack };

    ghost view = { λ a. record { holds = held a.holds; places = a.places } };

    ghost invariant = { λ a. a.places ≤ spare a.holds };
}

impl Shelf {
    pub fn new() -> Shelf
        ensures { result ≡ record { holds = []; places = 0 } }
    {
        Shelf {
            holds: HoldList::Empty,
            places: 0,
        }
    }

    pub fn holds(&self) -> &[Hold]
        ensures { result.now ≡ self.now.holds }
    {
        self.holds.as_slice()
    }

    /// Whether nothing is held and nothing may come.
    pub fn is_idle(&self) -> bool
        ensures { result ≡ ((length self.now.holds == 0) && (self.now.places == 0)) }
    {
        self.holds.is_empty() && self.places == 0
    }

    /// Whether there is no room for more.
    pub fn is_full(&self) -> bool
        ensures { result ≡ (self.now.places == 0) }
    {
        self.places == 0
    }

    /// Makes room for one hold more.
    pub fn reserve(&mut self, alloc: Global) -> Mem<()>
        ensures holds { self.new.holds ≡ self.old.holds }
        ensures ok { OnOk result (self.new.places ≡ self.old.places + 1) }
        ensures err { OnErr result (self.new.places ≡ self.old.places) }
    {
        let places = self.places.checked_add(1).ok_or(OutOfMemory)?;
        self.holds.reserve(alloc, places)?;
        self.places = places;
        Ok(())
    }

    /// Gives the room for one hold up.
    pub fn cancel(&mut self)
        ensures holds { self.new.holds ≡ self.old.holds }
        ensures places { self.new.places ≡ self.old.places - 1 }
    {
        self.places = self.places.saturating_sub(1);
    }

    /// Adds a hold, for which there is room.
    pub fn fill(&mut self, hold: Hold)
        requires { 0 < self.old.places }
        ensures holds { self.new.holds ≡ self.old.holds ++ hold ∷ [] }
        ensures places { self.new.places + 1 ≡ self.old.places }
    {
        self.holds.fill(hold);
        self.places -= 1;
    }

    /// Adds a hold, beside the room that is kept for others.
    pub fn add(&mut self, alloc: Global, hold: Hold) -> Mem<()>
        ensures ok { OnOk result (self.new.holds ≡ self.old.holds ++ hold ∷ []) }
        ensures err { OnErr result (self.new.holds ≡ self.old.holds) }
        ensures places { self.new.places ≡ self.old.places }
    {
        self.holds.add(alloc, hold, self.places)
    }

    /// Takes out a hold.
    pub fn strike(&mut self, hold: &Hold)
        ensures holds { self.new.holds ≡ filter (λ other. not (same_hold hold.now other)) self.old.holds }
        ensures places { self.new.places ≡ self.old.places }
    {
        self.holds.strike(hold);
    }

    /// Takes all holds out, and gives the room for more up.
    pub fn take(&mut self) -> HoldList
        ensures taken { held result ≡ self.old.holds }
        ensures left { self.new ≡ record { holds = []; places = 0 } }
    {
        self.places = 0;
        mem::replace(&mut self.holds, HoldList::Empty)
    }
}
