ghost use Rattle.std.specs.Prelude.{◌≡◌, ◌++◌, map, filter, IfOk, OnOk};
ghost use Rattle.std.specs.List.{list_any};
ghost use Rattle.gx_waits.specs.Claim.{ahead, in_the_way, meets};
ghost use Rattle.gx_waits.specs.Claims.{is_clear};
ghost use Rattle.gx_locks.specs.Book.{IsFiled, claims_in};
ghost use Rattle.gx_locks.specs.Locks.{AreRisen, blockers};
ghost use Rattle.gx_locks.specs.Queue.{holds_up, queue_of};

use crate::book::Book;
use crate::claims::{is_same_claim, risen};
use gx_ids::{Gxid, Mem};
use gx_waits::Claim;
use std::alloc::Global;

// Whether a claim meets nobody: no hold, and no wait that stands ahead of it.
pub(crate) fn is_clear(book: &Book, waits: &[Claim], claim: &Claim) -> bool
    requires { IsFiled book.now }
    ensures { result ≡ is_clear (claims_in book.now) waits.now claim.now }
{
    book.is_free(claim) && !is_held_up(book, waits, claim)
}

// Whether a wait that came before a claim holds it up.
pub(crate) fn is_held_up(book: &Book, waits: &[Claim], claim: &Claim) -> bool
    requires { IsFiled book.now }
    ensures { result ≡ list_any (holds_up (claims_in book.now) claim.now) (ahead claim.now waits.now) }
{
    for wait in waits {
        if is_same_claim(claim, wait) {
            return false;
        }
        if book.holds_up(wait, claim) {
            return true;
        }
    }
    false
}

// The transactions that a claim meets, rising.
pub(crate) fn blockers_of(
    alloc: Global,
    book: &Book,
    waits: &[Claim],
    claim: &Claim,
) -> Mem<Vec<Gxid>>
    requires { IsFiled book.now }
    ensures { IfOk result (λ gxids. AreRisen gxids.items (blockers (in_the_way (claims_in book.now) waits.now claim.now) claim.now)) }
{
    let mut gxids = book.blockers(alloc, claim)?;
    push_queue(&mut gxids, book, waits, claim)?;
    risen(gxids)
}

// Adds the transactions whose waits hold a claim up, by wait.
fn push_queue(gxids: &mut Vec<Gxid>, book: &Book, waits: &[Claim], claim: &Claim) -> Mem<()>
    requires { IsFiled book.now }
    ensures { OnOk result (gxids.new.items ≡ gxids.old.items ++ blockers (queue_of (claims_in book.now) waits.now claim.now) claim.now) }
{
    for wait in waits {
        if is_same_claim(claim, wait) {
            return Ok(());
        }
        if book.holds_up(wait, claim) {
            gxids.push(wait.gxid)?;
        }
    }
    Ok(())
}
