ghost use Rattle.std.specs.Prelude.{◌≡◌, ◌<◌, ◌+◌, ◌-◌, ◌++◌, ◌∷◌, [], filter, not, IfOk, OnOk, OnErr};
ghost use Rattle.gx_locks.specs.Holds.{same_hold, claims_of};

use crate::hold::Hold;
use crate::slot::{Slot, claims, compact, void};
use gx_ids::{Mem, OutOfMemory};
use gx_waits::Claim;
use std::alloc::Global;
use std::marker::Model;

/// All holds by number, and for how many more there is room. A hold that is given back leaves its slot void; void
/// slots go once they are more than half.
#[derive(Drop)]
pub struct Ledger {
    slots: Vec<Slot>,
    next: u64,
    voids: usize,
    places: usize,
}

impl Model for Ledger {
    ghost use Rattle.std.specs.Vec.{vec_capacity};
    ghost use Rattle.gx_locks.specs.Rack.{Rack};
    ghost use Rattle.gx_locks.specs.Holds.{standing};
    ghost use Rattle.gx_locks.specs.Ledger.{IsLedger};

    ghost Value = { Rack };

    ghost view = { λ a. record { holds = standing a.slots.items; places = a.places } };

    ghost invariant = { λ a. IsLedger a.slots.items a.next a.places (vec_capacity a.slots) };
}

impl Ledger {
    pub fn new(alloc: Global) -> Ledger
        ensures { result ≡ record { holds = []; places = 0 } }
    {
        Ledger {
            slots: Vec::new(alloc),
            next: 0,
            voids: 0,
            places: 0,
        }
    }

    /// The claims that are held, in the order in which they came.
    pub fn claims(&self, alloc: Global) -> Mem<Vec<Claim>>
        ensures { IfOk result (λ claims. claims.items ≡ claims_of self.now.holds) }
    {
        let claims = claims(alloc, self.slots.as_slice())?;
        Ok(claims)
    }

    /// Makes room for one hold more.
    pub fn reserve(&mut self) -> Mem<()>
        ensures holds { self.new.holds ≡ self.old.holds }
        ensures ok { OnOk result (self.new.places ≡ self.old.places + 1) }
        ensures err { OnErr result (self.new.places ≡ self.old.places) }
    {
        let places = self.places.checked_add(1).ok_or(OutOfMemory)?;
        let _last = self.next.checked_add(places as u64).ok_or(OutOfMemory)?;
        self.slots.reserve(places)?;
        self.places = places;
        Ok(())
    }

    /// Gives the room for one hold up.
    pub fn cancel(&mut self)
        ensures holds { self.new.holds ≡ self.old.holds }
        ensures places { self.new.places ≡ self.old.places - 1 }
    {
        self.places = self.places.saturating_sub(1);
    }

    /// Adds a hold, for which there is room, under a number of its own.
    pub fn fill(&mut self, claim: Claim) -> Hold
        requires { 0 < self.old.places }
        ensures claim { result.claim ≡ claim }
        ensures holds { self.new.holds ≡ self.old.holds ++ result ∷ [] }
        ensures fresh { filter (λ other. not (same_hold result other)) self.old.holds ≡ self.old.holds }
        ensures places { self.new.places + 1 ≡ self.old.places }
    {
        let hold = Hold {
            number: self.next,
            claim,
        };
        self.slots.push_reserved(Slot { hold, stands: true });
        self.next += 1;
        self.places -= 1;
        hold
    }

    /// Adds a hold under a number of its own, beside the room that is kept for others.
    pub fn add(&mut self, claim: Claim) -> Mem<Hold>
        ensures claim { IfOk result (λ hold. hold.claim ≡ claim) }
        ensures holds { IfOk result (λ hold. self.new.holds ≡ self.old.holds ++ hold ∷ []) }
        ensures fresh { IfOk result (λ hold. filter (λ other. not (same_hold hold other)) self.old.holds ≡ self.old.holds) }
        ensures err { OnErr result (self.new.holds ≡ self.old.holds) }
        ensures places { self.new.places ≡ self.old.places }
    {
        self.reserve()?;
        Ok(self.fill(claim))
    }

    /// Takes out a hold.
    pub fn strike(&mut self, hold: &Hold)
        ensures holds { self.new.holds ≡ filter (λ other. not (same_hold hold.now other)) self.old.holds }
        ensures places { self.new.places ≡ self.old.places }
    {
        void(&mut self.slots, hold);
        self.voids = self.voids.saturating_add(1);
        if self.voids > self.slots.len() / 2 {
            compact(&mut self.slots);
            self.voids = 0;
        }
    }
}
