ghost use Rattle.std.specs.Prelude.{◌≡◌, ◌++◌, ◌∷◌, [], filter, length, map, IfOk, OnOk, false, true, find};
ghost use Rattle.std.specs.Cmp.{IsTotalOrder};
ghost use Rattle.std.specs.List.{list_any};
ghost use Rattle.gx_waits.specs.Claims.{is_clear, is_free, is_of};
ghost use Rattle.gx_locks.specs.HoldLists.{held};
ghost use Rattle.gx_locks.specs.Holds.{claims_of};
ghost use Rattle.gx_locks.specs.Locks.{may_take, resumed, wait_of};
ghost use Rattle.gx_meaning.specs.Order.{in_order};
ghost use Rattle.gx_rules.specs.Locks as rule;
ghost use Rattle.gx_waits.specs.Claim.{same_claim};
ghost use Rattle.gx_node.specs.Locking.{asked_locks, asked_mark, end_marks, granted_locks, granted_marks, resumed_marks, without_end};

use gx_ids::{Gxid, Mem, Node};
use gx_locks::{Hold, HoldList, LockAnswer, LockTable, Pair, is_same_claim};
use gx_store::Mark;
use gx_waits::{Claim, Object};
use std::alloc::Global;
use std::cmp::Ordering;

// IN ORDER
fn compare_claims(left: &Claim, right: &Claim) -> Ordering
    ensures { result ≡ rule.claim_order left.now right.now }
{
    left.object
        .cmp(&right.object)
        .then(left.mode.number().cmp(&right.mode.number()))
}

// The derived order of a type is total.
fn is_ordered<T: Ord>()
    ensures { IsTotalOrder T.cmp }
{}

fn sort_list(holds: &mut Vec<Hold>) -> Mem<()>
    ensures { OnOk result (claims_of holds.new.items ≡ in_order rule.claim_order (claims_of holds.old.items)) }
{
    is_ordered::<Object>();
    holds.sort_by(|left, right| compare_claims(&left.claim, &right.claim))?;
    Ok(())
}

fn sort_two(pair: &mut Pair)
    ensures { claims_of pair.new ≡ in_order rule.claim_order (claims_of pair.old) }
{
    let (first, second) = pair.parts();
    if compare_claims(&first.claim, &second.claim).is_gt() {
        *pair = Pair::new(second, first);
    }
}

fn sort_holds(holds: &mut HoldList) -> Mem<()>
    ensures { OnOk result (claims_of (held holds.new) ≡ in_order rule.claim_order (claims_of (held holds.old))) }
{
    match holds {
        HoldList::Empty => {}
        HoldList::One(_) => {}
        HoldList::Two(pair) => sort_two(pair),
        HoldList::Many(list) => sort_list(list)?,
    }
    Ok(())
}

// GIVEN BACK
// The waits of a transaction.
fn waits_of(alloc: Global, waits: &[Claim], gxid: Gxid) -> Mem<Vec<Claim>>
    ensures { IfOk result (λ claims. claims.items ≡ filter (is_of gxid) waits.now) }
{
    let claims: Vec<Claim> = waits
        .iter()
        .copied()
        .filter(|claim| claim.gxid == gxid)
        .collect(alloc)?;
    Ok(claims)
}

fn release_mark(node: Node, claim: Claim) -> Mark
    ensures { result ≡ rule.release_mark node claim }
{
    let Claim { gxid, object, mode } = claim;
    Mark::Release {
        node,
        gxid,
        object,
        mode,
    }
}

fn push_waits(marks: &mut Vec<Mark>, node: Node, waits: &[Claim]) -> Mem<()>
    ensures { OnOk result (marks.new.items ≡ marks.old.items ++ map (rule.release_mark node) waits.now) }
{
    for wait in waits {
        marks.push(release_mark(node, *wait))?;
    }
    Ok(())
}

fn push_holds(marks: &mut Vec<Mark>, node: Node, holds: &[Hold]) -> Mem<()>
    ensures { OnOk result (marks.new.items ≡ marks.old.items ++ map (rule.release_mark node) (claims_of holds.now)) }
{
    for hold in holds {
        marks.push(release_mark(node, hold.claim))?;
    }
    Ok(())
}

// The marks of a transaction's waits that are dropped.
fn push_dropped(
    alloc: Global,
    marks: &mut Vec<Mark>,
    node: Node,
    waits: &[Claim],
    gxid: Gxid,
) -> Mem<()>
    ensures { OnOk result (marks.new.items ≡ marks.old.items ++ map (rule.release_mark node) (filter (is_of gxid) waits.now)) }
{
    if waits.is_empty() {
        return Ok(());
    }
    let dropped = waits_of(alloc, waits, gxid)?;
    push_waits(marks, node, dropped.as_slice())
}

/// Gives back all locks of a transaction at a node and drops its wait, with a mark for each: the wait, then the holds in order.
pub fn give_back(
    alloc: Global,
    node: Node,
    locks: &mut LockTable,
    gxid: Gxid,
    marks: &mut Vec<Mark>,
) -> Mem<()>
    ensures locks { OnOk result (locks.new ≡ rule.released locks.old gxid) }
    ensures marks { OnOk result (marks.new.items ≡ marks.old.items ++ rule.release_marks node locks.old gxid) }
{
    push_dropped(alloc, marks, node, locks.waits(), gxid)?;
    let mut given = locks.take_all(gxid);
    sort_holds(&mut given)?;
    push_holds(marks, node, given.as_slice())?;
    Ok(())
}

/// One lock of a transaction at a node is given back, with its mark.
pub fn give_back_one(
    node: Node,
    locks: &mut LockTable,
    old: Claim,
    marks: &mut Vec<Mark>,
) -> Mem<()>
    ensures locks { OnOk result (locks.new ≡ rule.without_hold locks.old old) }
    ensures marks { OnOk result (marks.new.items ≡ marks.old.items ++ rule.release_mark node old ∷ []) }
{
    let Claim { gxid, object, mode } = old;
    marks.push(Mark::Release {
        node,
        gxid,
        object,
        mode,
    })?;
    locks.release(gxid, object, mode);
    Ok(())
}

// HELD
fn is_among(claims: &[Claim], claim: &Claim) -> bool
    ensures { result ≡ list_any (same_claim claim.now) claims.now }
{
    claims.iter().any(|other| is_same_claim(claim, other))
}

/// Whether a transaction holds this very lock at a node.
pub fn is_held(locks: &LockTable, claim: &Claim) -> Mem<bool>
    ensures { IfOk result (λ held. held ≡ list_any (same_claim claim.now) locks.now.holds) }
{
    let holds = locks.holds_of(claim.gxid)?;
    Ok(is_among(holds.as_slice(), claim))
}

// ASKED FOR
fn hold_mark(node: Node, claim: Claim) -> Mark
    ensures { result ≡ rule.hold_mark node claim }
{
    let Claim { gxid, object, mode } = claim;
    Mark::Hold {
        node,
        gxid,
        object,
        mode,
    }
}

fn wait_mark(node: Node, claim: Claim) -> Mark
    ensures { result ≡ rule.wait_mark node claim }
{
    let Claim { gxid, object, mode } = claim;
    Mark::Wait {
        node,
        gxid,
        object,
        mode,
    }
}

// It holds the lock, or waits for it.
fn push_asked(marks: &mut Vec<Mark>, node: Node, wanted: Claim, granted: bool) -> Mem<()>
    ensures { OnOk result (marks.new.items ≡ marks.old.items ++ asked_mark node wanted granted ∷ []) }
{
    let mark = if granted {
        hold_mark(node, wanted)
    } else {
        wait_mark(node, wanted)
    };
    marks.push(mark)?;
    Ok(())
}

fn request(locks: &mut LockTable, wanted: Claim) -> Mem<bool>
    requires { list_any (is_of wanted.gxid) locks.old.waits ≡ false }
    ensures granted { IfOk result (λ granted. granted ≡ is_clear locks.old.holds locks.old.waits wanted) }
    ensures locks { IfOk result (λ granted. locks.new ≡ asked_locks locks.old wanted granted) }
{
    match locks.request(wanted.gxid, wanted.object, wanted.mode)? {
        LockAnswer::Granted => Ok(true),
        LockAnswer::Waits(_) => Ok(false),
    }
}

/// Whether a transaction that doesn't wait at a node gets the lock that it asks for, with the mark of a hold; else it waits for
/// it from now on, with the mark of a wait.
pub fn ask_for(node: Node, locks: &mut LockTable, wanted: Claim, marks: &mut Vec<Mark>) -> Mem<bool>
    requires { list_any (is_of wanted.gxid) locks.old.waits ≡ false }
    ensures granted { IfOk result (λ granted. granted ≡ is_clear locks.old.holds locks.old.waits wanted) }
    ensures locks { IfOk result (λ granted. locks.new ≡ asked_locks locks.old wanted granted) }
    ensures marks { IfOk result (λ granted. marks.new.items ≡ marks.old.items ++ asked_mark node wanted granted ∷ []) }
{
    let granted = request(locks, wanted)?;
    push_asked(marks, node, wanted, granted)?;
    Ok(granted)
}

/// A lock that meets no hold at a node is taken, with the mark of a hold.
pub fn take_free(node: Node, locks: &mut LockTable, wanted: Claim, marks: &mut Vec<Mark>) -> Mem<()>
    requires { is_free locks.old.holds wanted ≡ true }
    ensures locks { OnOk result (locks.new ≡ rule.with_hold locks.old wanted) }
    ensures marks { OnOk result (marks.new.items ≡ marks.old.items ++ rule.hold_mark node wanted ∷ []) }
{
    locks.take(wanted.gxid, wanted.object, wanted.mode)?;
    marks.push(hold_mark(node, wanted))?;
    Ok(())
}

/// A transaction that doesn't wait at a node waits from now on for a lock that meets a hold there, with the mark of a wait.
pub fn wait_for(node: Node, locks: &mut LockTable, wanted: Claim, marks: &mut Vec<Mark>) -> Mem<()>
    requires waits { list_any (is_of wanted.gxid) locks.old.waits ≡ false }
    requires taken { is_free locks.old.holds wanted ≡ false }
    ensures locks { OnOk result (locks.new ≡ rule.with_wait locks.old wanted) }
    ensures marks { OnOk result (marks.new.items ≡ marks.old.items ++ rule.wait_mark node wanted ∷ []) }
{
    ask_for(node, locks, wanted, marks)?;
    Ok(())
}

// RESUMED
// The wait of a transaction.
fn find_wait(waits: &[Claim], gxid: Gxid) -> Option<Claim>
    ensures { result ≡ find (is_of gxid) waits.now }
{
    waits.iter().copied().find(|claim| claim.gxid == gxid)
}

fn push_resumed(marks: &mut Vec<Mark>, node: Node, wait: Option<Claim>) -> Mem<()>
    ensures { OnOk result (marks.new.items ≡ marks.old.items ++ resumed_marks node wait) }
{
    if let Some(claim) = wait {
        marks.push(hold_mark(node, claim))?;
    }
    Ok(())
}

/// The ready wait of a transaction at a node is a hold from now on, with its mark.
pub fn take_ready(node: Node, locks: &mut LockTable, gxid: Gxid, marks: &mut Vec<Mark>) -> Mem<()>
    requires { may_take locks.old gxid ≡ true }
    ensures locks { OnOk result (locks.new ≡ resumed locks.old gxid (wait_of locks.old gxid)) }
    ensures marks { OnOk result (marks.new.items ≡ marks.old.items ++ resumed_marks node (wait_of locks.old gxid)) }
{
    let wait = find_wait(locks.waits(), gxid);
    push_resumed(marks, node, wait)?;
    locks.resume(gxid);
    Ok(())
}

// A lock on another transaction's end is given back at once.
fn give_back_end(
    node: Node,
    locks: &mut LockTable,
    wait: Option<Claim>,
    marks: &mut Vec<Mark>,
) -> Mem<()>
    ensures locks { OnOk result (locks.new ≡ without_end locks.old wait) }
    ensures marks { OnOk result (marks.new.items ≡ marks.old.items ++ end_marks node wait) }
{
    match wait {
        Some(claim) => match claim.object {
            Object::Transaction(_) => give_back_one(node, locks, claim, marks),
            _ => Ok(()),
        },
        None => Ok(()),
    }
}

/// What a transaction has waited for at a node is granted, with its mark; where that is another's end, it is given back at once.
pub fn take_granted(node: Node, locks: &mut LockTable, gxid: Gxid, marks: &mut Vec<Mark>) -> Mem<()>
    requires { may_take locks.old gxid ≡ true }
    ensures locks { OnOk result (locks.new ≡ granted_locks locks.old gxid (wait_of locks.old gxid)) }
    ensures marks { OnOk result (marks.new.items ≡ marks.old.items ++ granted_marks node (wait_of locks.old gxid)) }
{
    let wait = find_wait(locks.waits(), gxid);
    take_ready(node, locks, gxid, marks)?;
    give_back_end(node, locks, wait, marks)
}
