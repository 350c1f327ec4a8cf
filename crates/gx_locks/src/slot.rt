ghost use Rattle.std.specs.Prelude.{◌≡◌, ◌≢◌, ◌<◌, ℕ, true, false, All, IfOk, IfSome, IfNone, map, filter, not, length, slice_index_or};
ghost use Rattle.std.specs.Vec.{vec_capacity};
ghost use Rattle.gx_locks.specs.declared.slot.Slot.{Slot};
ghost use Rattle.gx_locks.specs.Holds.{same_hold, standing};
ghost use Rattle.gx_locks.specs.Ledger.{AreRising, AreBelow};

use crate::claims::is_same_hold;
use crate::hold::Hold;
use gx_ids::Mem;
use gx_waits::Claim;
use std::alloc::Global;

/// A place in the ledger: a hold, and whether it still stands.
#[derive(Clone, Copy)]
pub struct Slot {
    pub hold: Hold,
    pub stands: bool,
}

// Voids the slot of a hold.
pub(crate) fn void(slots: &mut Vec<Slot>, hold: &Hold)
    requires { AreRising slots.old.items }
    ensures standing { standing slots.new.items ≡ filter (λ other. not (same_hold hold.now other)) (standing slots.old.items) }
    ensures rising { AreRising slots.new.items }
    ensures below { (n : ℕ) → AreBelow n slots.old.items → AreBelow n slots.new.items }
    ensures length { length slots.new.items ≡ length slots.old.items }
    ensures capacity { vec_capacity slots.new ≡ vec_capacity slots.old }
{
    if let Some(place) = find(slots.as_slice(), hold) {
        slots[place] = Slot {
            hold: *hold,
            stands: false,
        };
    }
}

// Where a hold stands.
fn find(slots: &[Slot], hold: &Hold) -> Option<usize>
    requires { AreRising slots.now }
    ensures there { IfSome result (λ i. (i < length slots.now) × ((d : Slot) → same_hold hold.now (slice_index_or slots.now i d).hold ≡ true)) }
    ensures nowhere { IfNone result (All (λ slot. same_hold hold.now slot.hold ≡ false) slots.now) }
{
    let place = place_of(slots, hold.number)?;
    if is_same_hold(hold, &slots[place].hold) {
        Some(place)
    } else {
        None
    }
}

// Where a number stands.
fn place_of(slots: &[Slot], number: u64) -> Option<usize>
    requires { AreRising slots.now }
    ensures there { IfSome result (λ i. (i < length slots.now) × ((d : Slot) → (slice_index_or slots.now i d).hold.number ≡ number)) }
    ensures nowhere { IfNone result (All (λ slot. slot.hold.number ≢ number) slots.now) }
{
    match slots.binary_search_by_key(&number, |slot| slot.hold.number) {
        Ok(place) => Some(place),
        Err(_) => None,
    }
}

// Drops the void slots.
pub(crate) fn compact(slots: &mut Vec<Slot>)
    ensures items { slots.new.items ≡ filter (λ slot. slot.stands) slots.old.items }
    ensures capacity { vec_capacity slots.new ≡ vec_capacity slots.old }
{
    slots.retain(|slot| slot.stands);
}

// The claims of the slots that stand.
pub(crate) fn claims(alloc: Global, slots: &[Slot]) -> Mem<Vec<Claim>>
    ensures { IfOk result (λ claims. claims.items ≡ map (λ slot. slot.hold.claim) (filter (λ slot. slot.stands) slots.now)) }
{
    let claims: Vec<Claim> = slots
        .iter()
        .filter(|slot| slot.stands)
        .map(|slot| slot.hold.claim)
        .collect(alloc)?;
    Ok(claims)
}
