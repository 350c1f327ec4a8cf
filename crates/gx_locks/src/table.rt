ghost use Rattle.std.specs.Prelude.{◌≡◌, [], ◌∷◌, false, true, None, Some, map, filter, IfOk, IfSome, OnErr, OnOk};
ghost use Rattle.std.specs.List.{list_any};
ghost use Rattle.gx_ids.specs.declared.ids.Gxid.{Gxid};
ghost use Rattle.gx_waits.specs.Claim.{AreEdges, ahead, same_claim};
ghost use Rattle.gx_waits.specs.Claims.{is_clear, is_free, is_of, with_claim, without, without_claim};
ghost use Rattle.gx_locks.specs.Graphs.{graph_at};
ghost use Rattle.gx_locks.specs.HoldLists.{held};
ghost use Rattle.gx_locks.specs.Holds.{claims_of};
ghost use Rattle.gx_locks.specs.Locks.{IsAnswer, IsLeast, blockers, is_ready, least_with, may_take, next_ready, ready_ones, resumed, wait_of};
ghost use Rattle.gx_locks.specs.Kept.{AreExclusive, AreOnce, WaitOnce};
ghost use Rattle.gx_locks.specs.Book.{IsFiled, claims_in};
ghost use Rattle.gx_locks.specs.Queue.{holds_up};

use crate::answer::LockAnswer;
use crate::book::Book;
use crate::claims::{find_of, is_any_of, put, take_out};
use crate::graph::graph_of;
use crate::hold_list::HoldList;
use crate::queue::{blockers_of, is_clear, is_held_up};
use gx_ids::{Gxid, Mem, Node, Seq};
use gx_modes::Mode;
use gx_waits::{Claim, LocalGraph, Object};
use std::alloc::Global;
use std::marker::Model;

/// The locks at a node. Contracts see the holds and the standing waits as two lists, each in the order in which they
/// came. Holds are found by object and by transaction: a request costs by the holds on its object, and, where somebody
/// waits for that, by the waits.
#[derive(Drop)]
pub struct LockTable {
    alloc: Global,
    node: Node,
    book: Book,
    waits: Vec<Claim>,
}

impl Model for LockTable {
    ghost use Rattle.gx_locks.specs.Locks.{Locks};
    ghost use Rattle.gx_locks.specs.Book.{claims_in, IsWhole};

    ghost Value = { Locks };

    ghost view = { λ a. record { node = a.node; holds = claims_in a.book; waits = a.waits.items } };

    ghost invariant = { λ a. IsWhole a.book a.waits.items };
}

impl LockTable {
    /// A table without locks.
    pub fn new(alloc: Global, node: Node) -> Mem<LockTable>
        ensures { IfOk result (λ table. table ≡ record { node = node; holds = []; waits = [] }) }
    {
        Ok(LockTable {
            alloc,
            node,
            book: Book::new(alloc),
            waits: Vec::new(alloc),
        })
    }

    /// A list of the holds. No two of different transactions conflict on one object, and none stands twice.
    pub fn holds(&self) -> Mem<Vec<Claim>>
        ensures value { IfOk result (λ claims. claims.items ≡ self.now.holds) }
        ensures exclusive { AreExclusive self.now.holds }
        ensures once { AreOnce self.now.holds }
    {
        self.book.claims(self.alloc)
    }

    /// The holds of a transaction, in the order in which they came.
    pub fn holds_of(&self, gxid: Gxid) -> Mem<Vec<Claim>>
        ensures { IfOk result (λ claims. claims.items ≡ filter (is_of gxid) self.now.holds) }
    {
        self.book.claims_of(self.alloc, gxid)
    }

    /// The standing waits, at most one of a transaction.
    pub fn waits(&self) -> &[Claim]
        ensures value { result.now ≡ self.now.waits }
        ensures once { WaitOnce result.now }
    {
        self.waits.as_slice()
    }

    /// Whether a transaction has a standing wait here.
    pub fn is_waiting(&self, gxid: Gxid) -> bool
        ensures { result ≡ list_any (is_of gxid) self.now.waits }
    {
        if self.book.is_full(gxid) {
            return false;
        }
        is_any_of(self.waits.as_slice(), gxid)
    }

    /// Asks for a lock, where the transaction has no standing wait. The request is granted where nothing is in its way: no hold of
    /// another transaction that conflicts, and no wait of another that conflicts, but for those that a hold of the asking
    /// transaction's own blocks. Else it stands as the last wait, for which there is room among the holds from then on.
    pub fn request(&mut self, gxid: Gxid, object: Object, mode: Mode) -> Mem<LockAnswer>
        requires { list_any (is_of gxid) self.old.waits ≡ false }
        ensures ok { IfOk result (λ answer. IsAnswer self.old (record { gxid = gxid; object = object; mode = mode }) answer self.new) }
        ensures err { OnErr result (self.new ≡ self.old) }
    {
        let claim = Claim { gxid, object, mode };
        let standing = self.book.standing(&claim);
        if standing.is_held {
            return Ok(LockAnswer::Granted);
        }
        if !standing.is_free || self.is_behind(&claim) {
            return self.wait(claim);
        }
        self.book.add(claim)?;
        Ok(LockAnswer::Granted)
    }

    /// Holds a lock that no other transaction's hold conflicts with, whoever waits for it: for one that nobody can wait for yet.
    pub fn take(&mut self, gxid: Gxid, object: Object, mode: Mode) -> Mem<()>
        requires { is_free self.old.holds (record { gxid = gxid; object = object; mode = mode }) ≡ true }
        ensures ok { OnOk result (self.new ≡ record self.old { holds = with_claim (record { gxid = gxid; object = object; mode = mode }) self.old.holds }) }
        ensures err { OnErr result (self.new ≡ self.old) }
    {
        let claim = Claim { gxid, object, mode };
        if !self.book.is_held(&claim) {
            self.book.add(claim)?;
        }
        Ok(())
    }

    // Whether a wait holds up a claim that is asked for.
    fn is_behind(&self, claim: &Claim) -> bool
        ensures { result ≡ list_any (holds_up self.now.holds claim.now) (ahead claim.now self.now.waits) }
    {
        if self.waits.is_empty() || self.book.is_unawaited(claim.object) {
            return false;
        }
        is_held_up(&self.book, self.waits.as_slice(), claim)
    }

    // Stands as a wait from now on.
    fn wait(&mut self, claim: Claim) -> Mem<LockAnswer>
        requires met { is_clear self.old.holds self.old.waits claim ≡ false }
        requires once { list_any (is_of claim.gxid) self.old.waits ≡ false }
        ensures ok { IfOk result (λ answer. IsAnswer self.old claim answer self.new) }
        ensures err { OnErr result (self.new ≡ self.old) }
    {
        let blockers = blockers_of(self.alloc, &self.book, self.waits.as_slice(), &claim)?;
        self.waits.reserve(1)?;
        self.book.expect(&claim)?;
        put(&mut self.waits, claim);
        Ok(LockAnswer::Waits(Seq::from_vec(blockers)))
    }

    /// The least transaction whose wait is ready: it meets nobody any more, neither who holds nor who waits ahead of it.
    pub fn ready(&self) -> Option<Gxid>
        ensures value { result ≡ next_ready self.now }
        ensures least { IsLeast result (ready_ones self.now) }
        ensures ready { IfSome result (λ g. may_take self.now g ≡ true) }
    {
        least_ready(self.waits.as_slice(), &self.book)
    }

    /// Whether a transaction waits here and its wait is ready.
    pub fn is_ready(&self, gxid: Gxid) -> bool
        ensures { result ≡ may_take self.now gxid }
    {
        match find_of(self.waits.as_slice(), gxid) {
            Some(wait) => is_clear(&self.book, self.waits.as_slice(), &wait),
            None => false,
        }
    }

    /// Makes the ready wait of a transaction a hold. It takes no memory: `request` made the room.
    pub fn resume(&mut self, gxid: Gxid)
        requires { may_take self.old gxid ≡ true }
        ensures { self.new ≡ resumed self.old gxid (wait_of self.old gxid) }
    {
        if let Some(wait) = find_of(self.waits.as_slice(), gxid) {
            take_out(&mut self.waits, gxid);
            if self.book.is_held(&wait) {
                self.book.forget(&wait);
            } else {
                self.book.hold(wait);
            }
        }
    }

    /// Gives one lock back.
    pub fn release(&mut self, gxid: Gxid, object: Object, mode: Mode)
        ensures { self.new ≡ record self.old { holds = without_claim (record { gxid = gxid; object = object; mode = mode }) self.old.holds } }
    {
        self.book.release(&Claim { gxid, object, mode });
    }

    /// Gives back all locks of a transaction, and drops its wait.
    pub fn release_all(&mut self, gxid: Gxid)
        ensures { self.new ≡ record self.old { holds = without gxid self.old.holds; waits = without gxid self.old.waits } }
    {
        drop(self.take_all(gxid));
    }

    /// Gives back all locks of a transaction, drops its wait, and hands out its holds in the order in which they came.
    pub fn take_all(&mut self, gxid: Gxid) -> HoldList
        ensures table { self.new ≡ record self.old { holds = without gxid self.old.holds; waits = without gxid self.old.waits } }
        ensures taken { claims_of (held result) ≡ filter (is_of gxid) self.old.holds }
    {
        self.drop_wait(gxid);
        self.book.release_all(gxid)
    }

    // Drops the wait of a transaction, where it has one.
    fn drop_wait(&mut self, gxid: Gxid)
        ensures { self.new ≡ record self.old { waits = without gxid self.old.waits } }
    {
        if self.waits.is_empty() {
            return;
        }
        if self.book.is_full(gxid) {
            return;
        }
        if let Some(wait) = find_of(self.waits.as_slice(), gxid) {
            take_out(&mut self.waits, gxid);
            self.book.forget(&wait);
        }
    }

    /// The edges from the waits to whom they meet, dotted exactly for tuples, by wait, and then by hold and by the waits
    /// ahead of it.
    pub fn graph(&self) -> Mem<LocalGraph>
        ensures node { IfOk result (λ graph. graph.node ≡ self.now.node) }
        ensures edges { IfOk result (λ graph. AreEdges self.now.waits self.now.holds graph.edges) }
        ensures graph { IfOk result (λ graph. graph ≡ graph_at self.now) }
    {
        graph_of(self.alloc, self.node, self.waits.as_slice(), &self.book)
    }
}

// The least transaction whose wait is ready.
fn least_ready(waits: &[Claim], book: &Book) -> Option<Gxid>
    requires { IsFiled book.now }
    ensures { result ≡ least_with None (map (λ wait. wait.gxid) (filter (is_clear (claims_in book.now) waits.now) waits.now)) }
{
    let mut least = None;
    for wait in waits {
        if is_clear(book, waits, wait) {
            least = Some(lesser_of(least, wait.gxid));
        }
    }
    least
}

// The lesser of two, of which the first may be missing.
fn lesser_of(seen: Option<Gxid>, gxid: Gxid) -> Gxid
    ensures { Some result ≡ least_with seen (gxid ∷ []) }
{
    match seen {
        Some(other) if other < gxid => other,
        _ => gxid,
    }
}
