// Opening a log: what its slots have kept, and whether they are those of a log.
ghost use Rattle.std.specs.Prelude.{◌≡◌, ◌≢◌, ◌<◌, ◌≤◌, ◌+◌, ◌*◌, ◌^◌, ℕ, List, Bool, None, Some, true, false, IfOk, IfErr, IfSome, OnOk, OnErr};
ghost use Rattle.std.specs.BTreeMap.{get};
ghost use Rattle.std.specs.Ordering.{nat_cmp};
ghost use Rattle.gx_decide.specs.Calls.{AreMade, AreMadePartly, opening};
ghost use Rattle.gx_decide.specs.Deciding.{IsBehindRefused, IsFront, IsFrontRefused, IsSoundSlot};
ghost use Rattle.gx_decide.specs.Disk.{ReachesTo};
ghost use Rattle.gx_decide.specs.History.{Event, GoesOn, Led, OpenBroken, Opened};
ghost use Rattle.gx_decide.specs.Kept.{IsOpenRefused, Knows, verdict_by};
ghost use Rattle.gx_decide.specs.Log.{IsEnd, IsLog, gate_at, pairs_before, slots_of, verdict_in};

use crate::decide_fault::DecideFault;
use crate::decider::Decider;
use crate::decision::Decision;
use crate::disk::Disk;
use crate::slot::{OPEN, SHUT, SLOT, Slot, read_slot};
use crate::writing::shut_gate;
use std::alloc::Global;
use std::collections::BTreeMap;

// The most slots that a log has.
const MOST_SLOTS: u64 = 1 << 20;

// The slots before the end, and the gate there, which is shut where there is no further slot.
#[derive(Drop)]
struct Front {
    end: u32,
    gate: u8,
    verdicts: BTreeMap<u64, Decision>,
}

/// Opens a log that a stop may have left, and shuts the gate at its end.
pub fn open_log<D: Disk>(alloc: Global, disk: &mut D) -> Result<Decider, DecideFault>
    ensures known { IfOk result (λ decider. Knows decider (D.state disk.new)) }
    // its pairs are those of the slots before the first whose gate isn't open, and no slot is bad
    ensures end { IfOk result (λ decider. IsEnd (slots_of (D.state disk.old).size) (D.state disk.old).seen decider.used) }
    ensures verdicts { IfOk result (λ decider. (gxid : ℕ) → verdict_by decider gxid ≡ verdict_in (pairs_before (D.state disk.old).seen decider.used) gxid) }
    ensures log { IfOk result (λ decider. IsLog (slots_of (D.state disk.old).size) (D.state disk.old).seen decider.used) }
    ensures made { IfOk result (λ decider. AreMade (opening (slots_of (D.state disk.old).size) (D.state disk.old).seen decider.used) (D.state disk.old) (D.state disk.new)) }
    ensures broken { OnErr result ((end : ℕ) × IsEnd (slots_of (D.state disk.old).size) (D.state disk.old).seen end
        × AreMadePartly (opening (slots_of (D.state disk.old).size) (D.state disk.old).seen end) (D.state disk.old) (D.state disk.new)) }
    ensures refused { IfErr result (IsOpenRefused (D.state disk.old) (D.state disk.new) (D.fault_count disk.old) (D.fault_count disk.new)) }
    ensures later { D.fault_count disk.old ≤ D.fault_count disk.new }
    ensures size { (D.state disk.new).size ≡ (D.state disk.old).size }
    // bytes behind the last slot are neither read nor written
    ensures reach { ReachesTo (16 * slots_of (D.state disk.old).size) (D.reach disk.old) (D.reach disk.new) }
    // after every list of opens, settles and stops, with this call too: the disk is their log
    ensures durable { OnOk result ((events : List Event) (ready : Bool) → Led events (D.state disk.old) ready → GoesOn Opened events (D.state disk.new) true) }
    ensures durable_err { OnErr result ((events : List Event) (ready : Bool) → Led events (D.state disk.old) ready → GoesOn OpenBroken events (D.state disk.new) false) }
{
    disk.sync()?;
    let slots = (disk.len() / SLOT).min(MOST_SLOTS) as u32;
    let front = read_front(alloc, disk, slots)?;
    check_behind(disk, front.end, slots)?;
    shut_gate(disk, front.end, front.gate)?;
    Ok(Decider::new(slots, front.end, front.verdicts))
}

// Reads the slots up to the first whose gate isn't open.
fn read_front<D: Disk>(alloc: Global, disk: &mut D, slots: u32) -> Result<Front, DecideFault>
    requires { 16 * slots ≤ (D.state disk.old).size }
    ensures front { IfOk result (λ front. IsFront slots (D.state disk.old).seen front.end front.gate) }
    ensures verdicts { IfOk result (λ front. (gxid : ℕ) → get nat_cmp front.verdicts gxid ≡ verdict_in (pairs_before (D.state disk.old).seen front.end) gxid) }
    ensures refused { IfErr result (IsFrontRefused slots (D.state disk.old).seen (D.fault_count disk.old) (D.fault_count disk.new)) }
    ensures later { D.fault_count disk.old ≤ D.fault_count disk.new }
    ensures reach { ReachesTo (16 * slots) (D.reach disk.old) (D.reach disk.new) }
    ensures state { D.state disk.new ≡ D.state disk.old }
{
    let mut verdicts = BTreeMap::new(alloc);
    for end in 0..slots {
        let slot = read_slot(disk, end)?;
        if slot.gate != OPEN {
            return Ok(Front {
                end,
                gate: slot.gate,
                verdicts,
            });
        }
        let Some(decision) = sound_decision(slot, &verdicts) else {
            return Err(DecideFault::NotLog(end));
        };
        verdicts.insert(slot.gxid, decision)?;
    }
    Ok(Front {
        end: slots,
        gate: SHUT,
        verdicts,
    })
}

// The verdict of a slot before the end, unless the slot is bad.
fn sound_decision(slot: Slot, earlier: &BTreeMap<u64, Decision>) -> Option<Decision>
    ensures sound { IfSome result (λ decision. IsSoundSlot slot decision × (get nat_cmp earlier.now slot.gxid ≡ None)) }
    ensures bad { result ≡ None → (decision : Decision) → IsSoundSlot slot decision → get nat_cmp earlier.now slot.gxid ≡ None → ⊥ }
{
    if slot.gxid == 0 || !slot.is_blank || earlier.contains_key(&slot.gxid) {
        return None;
    }
    match slot.verdict {
        1 => Some(Decision::Commit),
        2 => Some(Decision::Abort),
        _ => None,
    }
}

// Reads the slots behind the end, none of which may be open.
fn check_behind<D: Disk>(disk: &mut D, end: u32, slots: u32) -> Result<(), DecideFault>
    requires { 16 * slots ≤ (D.state disk.old).size }
    ensures none { OnOk result ((slot : ℕ) → end < slot → slot < slots → gate_at (D.state disk.old).seen slot ≢ 1) }
    ensures refused { IfErr result (IsBehindRefused slots (D.state disk.old).seen end (D.fault_count disk.old) (D.fault_count disk.new)) }
    ensures later { D.fault_count disk.old ≤ D.fault_count disk.new }
    ensures reach { ReachesTo (16 * slots) (D.reach disk.old) (D.reach disk.new) }
    ensures state { D.state disk.new ≡ D.state disk.old }
{
    for place in end.saturating_add(1)..slots {
        if read_slot(disk, place)?.gate == OPEN {
            return Err(DecideFault::NotLog(place));
        }
    }
    Ok(())
}
