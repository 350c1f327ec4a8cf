ghost use Rattle.std.specs.Prelude.{◌≡◌, ◌≢◌, ◌+◌, ◌∷◌, ◌++◌, [], ◌==◌, filter, find, not, IfOk, OnOk, OnErr};
ghost use Rattle.std.specs.List.{list_any};
ghost use Rattle.gx_waits.specs.declared.claim.Claim.{Claim};
ghost use Rattle.gx_waits.specs.Claim.{same_claim};
ghost use Rattle.gx_waits.specs.Claims.{is_free, is_of, without};
ghost use Rattle.gx_locks.specs.Holds.{same_hold, claims_of, is_under};
ghost use Rattle.gx_locks.specs.HoldLists.{held};
ghost use Rattle.gx_locks.specs.Kept.{AreOnce};
ghost use Rattle.gx_locks.specs.Locks.{blockers};
ghost use Rattle.gx_locks.specs.Queue.{holds_up};

use crate::claims::{
    all_blockers, copy_claims, find_same, is_any_met, is_any_own, is_any_same, is_met,
};
use crate::hold::Hold;
use crate::hold_list::HoldList;
use crate::index::Index;
use crate::key::Key;
use crate::ledger::Ledger;
use gx_ids::{Gxid, Mem};
use gx_waits::{Claim, Object};
use std::alloc::Global;

/// Whether a claim meets no hold, and whether it is held.
#[derive(Clone, Copy)]
pub struct Standing {
    pub is_free: bool,
    pub is_held: bool,
}

/// The holds, with an index by object and by transaction.
#[derive(Drop)]
pub struct Book {
    ledger: Ledger,
    index: Index,
}

impl Book {
    ghost use Rattle.gx_locks.specs.declared.key.Key.{Key};
    ghost use Rattle.gx_locks.specs.declared.key.Key.TheVariants.{On, Of};
    ghost use Rattle.gx_locks.specs.Index.{IsTidy, holds_at, places_at};
    ghost use Rattle.gx_locks.specs.Book.{IsFiled, claims_in, HasSameHolds, HasSamePlaces, HasPlaceMore, HasPlaceLess, HasPlace};

    pub fn new(alloc: Global) -> Book
        ensures empty { result.ledger ≡ record { holds = []; places = 0 } }
        ensures filed { IsFiled result }
        ensures places { (k : Key) → places_at result.index k ≡ 0 }
        ensures tidy { IsTidy result.index }
    {
        Book {
            ledger: Ledger::new(alloc),
            index: Index::new(alloc),
        }
    }

    /// The claims that are held, in the order in which they came.
    pub fn claims(&self, alloc: Global) -> Mem<Vec<Claim>>
        ensures { IfOk result (λ claims. claims.items ≡ claims_in self.now) }
    {
        self.ledger.claims(alloc)
    }

    /// The claims of a transaction, in the order in which they came.
    pub fn claims_of(&self, alloc: Global, gxid: Gxid) -> Mem<Vec<Claim>>
        requires { IsFiled self.now }
        ensures { IfOk result (λ claims. claims.items ≡ filter (is_of gxid) (claims_in self.now)) }
    {
        copy_claims(alloc, self.index.at(Key::Of(gxid)))
    }

    /// The holds on an object.
    pub fn on(&self, object: Object) -> &[Hold]
        ensures { result.now ≡ holds_at self.now.index (On object) }
    {
        self.index.at(Key::On(object))
    }

    /// Whether a claim meets no hold.
    pub fn is_free(&self, claim: &Claim) -> bool
        requires { IsFiled self.now }
        ensures { result ≡ is_free (claims_in self.now) claim.now }
    {
        !is_any_met(self.on(claim.object), claim)
    }

    /// Whether a claim is held.
    pub fn is_held(&self, claim: &Claim) -> bool
        requires { IsFiled self.now }
        ensures { result ≡ list_any (same_claim claim.now) (claims_in self.now) }
    {
        is_any_same(self.on(claim.object), claim)
    }

    /// How a claim stands to the holds.
    pub fn standing(&self, claim: &Claim) -> Standing
        requires { IsFiled self.now }
        ensures free { result.is_free ≡ is_free (claims_in self.now) claim.now }
        ensures held { result.is_held ≡ list_any (same_claim claim.now) (claims_in self.now) }
    {
        let holds = self.on(claim.object);
        Standing {
            is_free: !is_any_met(holds, claim),
            is_held: is_any_same(holds, claim),
        }
    }

    /// Whether a wait holds a claim up that came after it: the claim meets it, and it meets nothing that the claim's
    /// transaction holds.
    pub fn holds_up(&self, wait: &Claim, claim: &Claim) -> bool
        requires { IsFiled self.now }
        ensures { result ≡ holds_up (claims_in self.now) claim.now wait.now }
    {
        is_met(claim, wait) && !is_any_own(self.on(wait.object), claim.gxid, wait)
    }

    /// The transactions whose holds a claim meets, by hold.
    pub fn blockers(&self, alloc: Global, claim: &Claim) -> Mem<Vec<Gxid>>
        requires { IsFiled self.now }
        ensures { IfOk result (λ gxids. gxids.items ≡ blockers (claims_in self.now) claim.now) }
    {
        all_blockers(alloc, self.on(claim.object), claim)
    }

    /// Whether there is no place for a claim on an object: nobody waits for it.
    pub fn is_unawaited(&self, object: Object) -> bool
        ensures { result ≡ (places_at self.now.index (On object) == 0) }
    {
        self.index.is_full(Key::On(object))
    }

    /// Whether there is no place for a claim of a transaction.
    pub fn is_full(&self, gxid: Gxid) -> bool
        ensures { result ≡ (places_at self.now.index (Of gxid) == 0) }
    {
        self.index.is_full(Key::Of(gxid))
    }

    /// Makes a place for a claim.
    pub fn expect(&mut self, claim: &Claim) -> Mem<()>
        ensures holds { HasSameHolds self.old self.new }
        ensures ok { OnOk result (HasPlaceMore self.old self.new claim.now) }
        ensures err { OnErr result (HasSamePlaces self.old self.new) }
        ensures tidy { IsTidy self.old.index → IsTidy self.new.index }
    {
        self.ledger.reserve()?;
        if let Err(error) = self.index.expect(claim) {
            self.ledger.cancel();
            return Err(error);
        }
        Ok(())
    }

    /// Gives the place for a claim up.
    pub fn forget(&mut self, claim: &Claim)
        ensures holds { HasSameHolds self.old self.new }
        ensures places { HasPlaceLess self.old self.new claim.now }
        ensures tidy { IsTidy self.old.index → IsTidy self.new.index }
    {
        self.ledger.cancel();
        self.index.forget(claim);
    }

    /// Holds a claim, for which there is a place.
    pub fn hold(&mut self, claim: Claim)
        requires filed { IsFiled self.old }
        requires place { HasPlace self.old claim }
        ensures filed { IsFiled self.new }
        ensures claims { claims_in self.new ≡ claims_in self.old ++ claim ∷ [] }
        ensures places { HasPlaceLess self.old self.new claim }
        ensures tidy { IsTidy self.old.index → IsTidy self.new.index }
    {
        let hold = self.ledger.fill(claim);
        self.index.file(hold);
    }

    /// Holds a claim, beside the places that are kept for others.
    pub fn add(&mut self, claim: Claim) -> Mem<()>
        requires { IsFiled self.old }
        ensures filed { IsFiled self.new }
        ensures ok { OnOk result (claims_in self.new ≡ claims_in self.old ++ claim ∷ []) }
        ensures err { OnErr result (claims_in self.new ≡ claims_in self.old) }
        ensures places { HasSamePlaces self.old self.new }
        ensures tidy { IsTidy self.old.index → IsTidy self.new.index }
    {
        let hold = self.ledger.add(claim)?;
        if let Err(error) = self.index.enter(hold) {
            self.ledger.strike(&hold);
            return Err(error);
        }
        Ok(())
    }

    /// Gives a claim back.
    pub fn release(&mut self, claim: &Claim)
        requires filed { IsFiled self.old }
        requires once { AreOnce (claims_in self.old) }
        ensures filed { IsFiled self.new }
        ensures claims { claims_in self.new ≡ filter (λ other. not (same_claim claim.now other)) (claims_in self.old) }
        ensures places { HasSamePlaces self.old self.new }
        ensures tidy { IsTidy self.old.index → IsTidy self.new.index }
    {
        if let Some(hold) = find_same(self.on(claim.object), claim) {
            self.ledger.strike(&hold);
            self.index.unfile(&hold);
        }
    }

    /// Gives all claims of a transaction back, for which there are no places any more, and hands out its holds.
    pub fn release_all(&mut self, gxid: Gxid) -> HoldList
        requires filed { IsFiled self.old }
        requires once { AreOnce (claims_in self.old) }
        ensures filed { IsFiled self.new }
        ensures taken { claims_of (held result) ≡ filter (is_of gxid) (claims_in self.old) }
        ensures claims { claims_in self.new ≡ without gxid (claims_in self.old) }
        ensures places { self.new.ledger.places ≡ self.old.ledger.places }
        ensures none { places_at self.new.index (Of gxid) ≡ 0 }
        ensures room { (k : Key) → k ≢ Of gxid → places_at self.new.index k ≡ places_at self.old.index k }
        ensures tidy { IsTidy self.old.index → IsTidy self.new.index }
    {
        let holds = self.index.take_of(gxid);
        for hold in holds.as_slice() {
            self.ledger.strike(hold);
            self.index.strike(Key::On(hold.claim.object), hold);
        }
        holds
    }
}
