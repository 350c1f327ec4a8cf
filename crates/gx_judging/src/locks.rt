// The locks that are held and waited for, by node.
ghost use Rattle.std.specs.Prelude.{◌≡◌, ◌==◌, ◌++◌, ℕ, nat_eq, false, length, replicate, [], ◌∷◌, IfOk, OnOk, if◌then◌else◌};
ghost use Rattle.std.specs.List.{list_any};
ghost use Rattle.gx_store.specs.Waits.{holds_from, waits_from};
ghost use Rattle.gx_waits.specs.Claim.{same_claim};
ghost use Rattle.gx_waits.specs.Claims.{claim as claim_on, with_claim, without_claim};
ghost use Rattle.gx_judging.specs.Standing.{IsLong, claims_at, node_at};

use gx_ids::{Gxid, Mem, Node, Seq};
use gx_locks::is_same_claim;
use gx_modes::Mode;
use gx_store::Mark;
use gx_waits::{Claim, Object};
use std::alloc::Global;

/// The claims that are held, and those that are waited for, by the node's number.
#[derive(Drop)]
pub struct Locks {
    pub holds: Vec<Seq<Claim>>,
    pub waits: Vec<Seq<Claim>>,
}

/// As many as nodes can be named.
const NODES: usize = 256;

fn no_claims(alloc: Global) -> Mem<Vec<Seq<Claim>>>
    ensures { IfOk result (λ lists. lists.items ≡ replicate 256 []) }
{
    let mut lists = Vec::new(alloc);
    for _node in 0..NODES {
        lists.push(Seq::new(alloc))?;
    }
    Ok(lists)
}

/// None.
pub(crate) fn no_locks(alloc: Global) -> Mem<Locks>
    ensures holds { IfOk result (λ locks. locks.holds.items ≡ replicate 256 []) }
    ensures waits { IfOk result (λ locks. locks.waits.items ≡ replicate 256 []) }
{
    Ok(Locks {
        holds: no_claims(alloc)?,
        waits: no_claims(alloc)?,
    })
}

/// Those of a node.
pub(crate) fn claims_of(lists: &[Seq<Claim>], node: Node) -> &[Claim]
    ensures { result.now ≡ claims_at lists.now node.0 }
{
    match lists.get(usize::from(node.0)) {
        Some(claims) => claims.as_slice(),
        None => &[],
    }
}

fn is_among(claims: &[Claim], claim: &Claim) -> bool
    ensures { result ≡ list_any (same_claim claim.now) claims.now }
{
    claims.iter().any(|other| is_same_claim(claim, other))
}

fn push(lists: &mut Vec<Seq<Claim>>, node: Node, claim: Claim) -> Mem<()>
    requires { 256 ≡ length lists.old.items }
    ensures long { OnOk result (256 ≡ length lists.new.items) }
    ensures here { OnOk result (claims_at lists.new.items node.0 ≡ claims_at lists.old.items node.0 ++ claim ∷ []) }
    ensures others { OnOk result ((k : ℕ) → nat_eq k node.0 ≡ false → claims_at lists.new.items k ≡ claims_at lists.old.items k) }
{
    lists[usize::from(node.0)].push(claim)
}

fn add(lists: &mut Vec<Seq<Claim>>, node: Node, claim: Claim) -> Mem<()>
    requires { 256 ≡ length lists.old.items }
    ensures long { OnOk result (256 ≡ length lists.new.items) }
    ensures here { OnOk result (claims_at lists.new.items node.0 ≡ with_claim claim (claims_at lists.old.items node.0)) }
    ensures others { OnOk result ((k : ℕ) → nat_eq k node.0 ≡ false → claims_at lists.new.items k ≡ claims_at lists.old.items k) }
{
    if is_among(claims_of(lists.as_slice(), node), &claim) {
        return Ok(());
    }
    push(lists, node, claim)
}

fn without(alloc: Global, claims: &[Claim], claim: &Claim) -> Mem<Vec<Claim>>
    ensures { IfOk result (λ kept. kept.items ≡ without_claim claim.now claims.now) }
{
    let mut kept = Vec::new(alloc);
    for other in claims {
        if !is_same_claim(claim, other) {
            kept.push(*other)?;
        }
    }
    Ok(kept)
}

fn put(lists: &mut Vec<Seq<Claim>>, node: Node, claims: Seq<Claim>)
    requires { 256 ≡ length lists.old.items }
    ensures long { 256 ≡ length lists.new.items }
    ensures here { claims_at lists.new.items node.0 ≡ claims }
    ensures others { (k : ℕ) → nat_eq k node.0 ≡ false → claims_at lists.new.items k ≡ claims_at lists.old.items k }
{
    lists[usize::from(node.0)] = claims;
}

fn take_out(alloc: Global, lists: &mut Vec<Seq<Claim>>, node: Node, claim: &Claim) -> Mem<()>
    requires { 256 ≡ length lists.old.items }
    ensures long { OnOk result (256 ≡ length lists.new.items) }
    ensures here { OnOk result (claims_at lists.new.items node.0 ≡ without_claim claim.now (claims_at lists.old.items node.0)) }
    ensures others { OnOk result ((k : ℕ) → nat_eq k node.0 ≡ false → claims_at lists.new.items k ≡ claims_at lists.old.items k) }
{
    let kept = without(alloc, claims_of(lists.as_slice(), node), claim)?;
    put(lists, node, Seq::from_vec(kept));
    Ok(())
}

fn note_hold(alloc: Global, locks: &mut Locks, node: Node, claim: Claim) -> Mem<()>
    requires { IsLong locks.old }
    ensures long { OnOk result (IsLong locks.new) }
    ensures holds { OnOk result ((n : ℕ) → claims_at locks.new.holds.items n ≡ (if node.0 == n then with_claim claim (claims_at locks.old.holds.items n) else claims_at locks.old.holds.items n)) }
    ensures waits { OnOk result ((n : ℕ) → claims_at locks.new.waits.items n ≡ (if node.0 == n then without_claim claim (claims_at locks.old.waits.items n) else claims_at locks.old.waits.items n)) }
{
    add(&mut locks.holds, node, claim)?;
    take_out(alloc, &mut locks.waits, node, &claim)?;
    Ok(())
}

fn note_wait(locks: &mut Locks, node: Node, claim: Claim) -> Mem<()>
    requires { IsLong locks.old }
    ensures long { OnOk result (IsLong locks.new) }
    ensures holds { OnOk result (locks.new.holds ≡ locks.old.holds) }
    ensures waits { OnOk result ((n : ℕ) → claims_at locks.new.waits.items n ≡ (if node.0 == n then with_claim claim (claims_at locks.old.waits.items n) else claims_at locks.old.waits.items n)) }
{
    add(&mut locks.waits, node, claim)?;
    Ok(())
}

fn note_release(alloc: Global, locks: &mut Locks, node: Node, claim: Claim) -> Mem<()>
    requires { IsLong locks.old }
    ensures long { OnOk result (IsLong locks.new) }
    ensures holds { OnOk result ((n : ℕ) → claims_at locks.new.holds.items n ≡ (if node.0 == n then without_claim claim (claims_at locks.old.holds.items n) else claims_at locks.old.holds.items n)) }
    ensures waits { OnOk result ((n : ℕ) → claims_at locks.new.waits.items n ≡ (if node.0 == n then without_claim claim (claims_at locks.old.waits.items n) else claims_at locks.old.waits.items n)) }
{
    take_out(alloc, &mut locks.holds, node, &claim)?;
    take_out(alloc, &mut locks.waits, node, &claim)?;
    Ok(())
}

fn claim_of(gxid: Gxid, object: Object, mode: Mode) -> Claim
    ensures { result ≡ claim_on gxid object mode }
{
    Claim { gxid, object, mode }
}

/// With what one mark more grants, has waited for, or gives back.
pub(crate) fn note_mark(alloc: Global, locks: &mut Locks, mark: &Mark) -> Mem<()>
    requires { IsLong locks.old }
    ensures long { OnOk result (IsLong locks.new) }
    ensures holds { OnOk result ((n : ℕ) → claims_at locks.new.holds.items n ≡ holds_from (node_at n) (claims_at locks.old.holds.items n) (mark.now ∷ [])) }
    ensures waits { OnOk result ((n : ℕ) → claims_at locks.new.waits.items n ≡ waits_from (node_at n) (claims_at locks.old.waits.items n) (mark.now ∷ [])) }
{
    match mark {
        Mark::Hold {
            node,
            gxid,
            object,
            mode,
        } => note_hold(alloc, locks, *node, claim_of(*gxid, *object, *mode)),
        Mark::Wait {
            node,
            gxid,
            object,
            mode,
        } => note_wait(locks, *node, claim_of(*gxid, *object, *mode)),
        Mark::Release {
            node,
            gxid,
            object,
            mode,
        } => note_release(alloc, locks, *node, claim_of(*gxid, *object, *mode)),
        _ => Ok(()),
    }
}
