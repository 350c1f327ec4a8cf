ghost use Rattle.std.specs.Prelude.{◌≡◌, ◌<◌, ◌++◌, ◌∷◌, [], ◌==◌, ◌&&◌, map, filter, find, IfOk, vec_len};
ghost use Rattle.std.specs.Vec.{vec_capacity};
ghost use Rattle.std.specs.List.{list_any};
ghost use Rattle.gx_waits.specs.Claim.{meets, same_claim, same_object};
ghost use Rattle.gx_waits.specs.Claims.{is_of, without};
ghost use Rattle.gx_locks.specs.Holds.{claims_of, same_hold};
ghost use Rattle.gx_locks.specs.Locks.{AreRisen};

use crate::hold::Hold;
use gx_ids::{Gxid, Mem};
use gx_modes::conflicts;
use gx_waits::{Claim, Object};
use std::alloc::Global;

/// Whether two objects are one.
pub fn is_same_object(a: &Object, b: &Object) -> bool
    ensures { result ≡ same_object a.now b.now }
{
    match (*a, *b) {
        (Object::Relation(t), Object::Relation(u)) => t == u,
        (Object::Tuple(r), Object::Tuple(q)) => r == q,
        (Object::Transaction(g), Object::Transaction(h)) => g == h,
        _ => false,
    }
}

// Whether a claim meets another that is held, or waited for.
pub(crate) fn is_met(claim: &Claim, other: &Claim) -> bool
    ensures { result ≡ meets claim.now other.now }
{
    claim.gxid != other.gxid
        && is_same_object(&claim.object, &other.object)
        && conflicts(claim.mode, other.mode)
}

/// Whether two claims are one.
pub fn is_same_claim(a: &Claim, b: &Claim) -> bool
    ensures { result ≡ same_claim a.now b.now }
{
    a.gxid == b.gxid && is_same_object(&a.object, &b.object) && a.mode.number() == b.mode.number()
}

// Whether two holds are one.
pub(crate) fn is_same_hold(a: &Hold, b: &Hold) -> bool
    ensures { result ≡ same_hold a.now b.now }
{
    a.number == b.number && is_same_claim(&a.claim, &b.claim)
}

// Whether a claim meets some hold.
pub(crate) fn is_any_met(holds: &[Hold], claim: &Claim) -> bool
    ensures { result ≡ list_any (λ hold. meets claim.now hold.claim) holds.now }
{
    holds.iter().any(|hold| is_met(claim, &hold.claim))
}

// Whether a claim is held.
pub(crate) fn is_any_same(holds: &[Hold], claim: &Claim) -> bool
    ensures { result ≡ list_any (λ hold. same_claim claim.now hold.claim) holds.now }
{
    holds.iter().any(|hold| is_same_claim(claim, &hold.claim))
}

// The hold of a claim.
pub(crate) fn find_same(holds: &[Hold], claim: &Claim) -> Option<Hold>
    ensures { result ≡ find (λ hold. same_claim claim.now hold.claim) holds.now }
{
    holds
        .iter()
        .copied()
        .find(|hold| is_same_claim(claim, &hold.claim))
}

// Whether a wait meets what a transaction holds among these.
pub(crate) fn is_any_own(holds: &[Hold], gxid: Gxid, wait: &Claim) -> bool
    ensures { result ≡ list_any (λ hold. (hold.claim.gxid.0 == gxid.0) && meets wait.now hold.claim) holds.now }
{
    holds.iter().any(|hold| hold.claim.gxid == gxid && is_met(wait, &hold.claim))
}

// The transactions of a list, rising, each once.
pub(crate) fn risen(gxids: Vec<Gxid>) -> Mem<Vec<Gxid>>
    ensures { IfOk result (λ risen. AreRisen risen.items gxids.items) }
{
    let mut risen = gxids;
    risen.sort()?;
    risen.dedup();
    Ok(risen)
}

// The transactions whose holds a claim meets, by hold.
pub(crate) fn all_blockers(alloc: Global, holds: &[Hold], claim: &Claim) -> Mem<Vec<Gxid>>
    ensures { IfOk result (λ gxids. gxids.items ≡ map (λ hold. hold.claim.gxid) (filter (λ hold. meets claim.now hold.claim) holds.now)) }
{
    let gxids: Vec<Gxid> = holds
        .iter()
        .filter(|hold| is_met(claim, &hold.claim))
        .map(|hold| hold.claim.gxid)
        .collect(alloc)?;
    Ok(gxids)
}

// The claims of holds.
pub(crate) fn copy_claims(alloc: Global, holds: &[Hold]) -> Mem<Vec<Claim>>
    ensures { IfOk result (λ claims. claims.items ≡ claims_of holds.now) }
{
    let claims: Vec<Claim> = holds.iter().map(|hold| hold.claim).collect(alloc)?;
    Ok(claims)
}

// Whether a transaction has a wait.
pub(crate) fn is_any_of(claims: &[Claim], gxid: Gxid) -> bool
    ensures { result ≡ list_any (is_of gxid) claims.now }
{
    claims.iter().any(|claim| claim.gxid == gxid)
}

// The wait of a transaction.
pub(crate) fn find_of(claims: &[Claim], gxid: Gxid) -> Option<Claim>
    ensures { result ≡ find (is_of gxid) claims.now }
{
    claims.iter().copied().find(|claim| claim.gxid == gxid)
}

// Adds a claim at the end, for which there is room.
pub(crate) fn put(claims: &mut Vec<Claim>, claim: Claim)
    requires { vec_len claims.old < vec_capacity claims.old }
    ensures { claims.new.items ≡ claims.old.items ++ claim ∷ [] }
{
    let _ = claims.push(claim);
}

// Takes out the claims of a transaction.
pub(crate) fn take_out(claims: &mut Vec<Claim>, gxid: Gxid)
    ensures { claims.new.items ≡ without gxid claims.old.items }
{
    claims.retain(|claim| claim.gxid != gxid);
}
