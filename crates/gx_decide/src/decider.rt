ghost use Rattle.std.specs.Prelude.{◌≡◌, ◌<◌, ◌≤◌, ◌+◌, ◌*◌, ◌==◌, ℕ, List, None, Some, Err, true, false, IfOk, IfErr, OnErr, IsOk, IsSome, unwrap_or, if◌then◌else◌};
ghost use Rattle.std.specs.BTreeMap.{is_at};
ghost use Rattle.std.specs.Ordering.{nat_cmp};
ghost use Rattle.gx_decide.specs.Disk.{ReachesTo};

use crate::decide_fault::DecideFault;
use crate::decision::Decision;
use crate::disk::Disk;
use crate::writing::write_pair;
use gx_ids::Gxid;
use std::alloc::Global;
use std::collections::BTreeMap;
use std::marker::Model;

/// What a log has kept, as the disk was when it was opened, with what was settled since.
#[derive(Drop)]
pub struct Decider {
    slots: u32,
    used: u32,
    verdicts: BTreeMap<u64, Decision>,
}

impl Model for Decider {
    ghost use Rattle.gx_decide.specs.Kept.{Kept};

    ghost Value = { Kept };

    ghost view = { λ d. record { slots = d.slots; used = d.used; verdicts = d.verdicts.entries } };
}

impl Decider {
    ghost use Rattle.gx_decide.specs.Kept.{IsSettleRefused, Knows, verdict_by};
    ghost use Rattle.gx_decide.specs.History.{DoesBreak, DoesSettle, Event, GoesOn, Led, SettleBroken, Settled};
    ghost use Rattle.gx_decide.specs.Log.{slots_of};

    // What was read of a log with so many slots, of which so many have a pair.
    pub(crate) fn new(slots: u32, used: u32, verdicts: BTreeMap<u64, Decision>) -> Decider
        ensures { result ≡ record { slots = slots; used = used; verdicts = verdicts.entries } }
    {
        Decider {
            slots,
            used,
            verdicts,
        }
    }

    /// How many slots the log has.
    pub fn slots(&self) -> u32
        ensures { result ≡ self.now.slots }
    {
        self.slots
    }

    /// How many of them have a pair.
    pub fn used(&self) -> u32
        ensures { result ≡ self.now.used }
    {
        self.used
    }

    /// The verdict that is kept for a transaction.
    pub fn kept(&self, gxid: Gxid) -> Option<Decision>
        ensures { result ≡ verdict_by self.now gxid.0 }
    {
        self.verdicts.get(&gxid.0).copied()
    }

    /// Answers the verdict that is kept for a transaction; where there is none, the wish is kept from now on, and answered.
    /// A refusal hands no decider back: open the disk again.
    pub fn settle<D: Disk>(
        self,
        disk: &mut D,
        gxid: Gxid,
        wish: Decision,
    ) -> Result<(Decider, Decision), DecideFault>
        requires drawn { 0 < gxid.0 }
        // the disk is as the open or settle that gave this decider left it
        requires known { Knows self (D.state disk.old) }
        ensures known { IfOk result (λ answer. Knows answer.0 (D.state disk.new)) }
        ensures answer { IfOk result (λ answer. answer.1 ≡ unwrap_or (verdict_by self gxid.0) wish) }
        ensures verdicts { IfOk result (λ answer. (g : ℕ) → verdict_by answer.0 g ≡ (if g == gxid.0 then Some answer.1 else verdict_by self g)) }
        // a verdict that is kept is answered without a call on the disk, whether the log is full or not
        ensures kept { IsSome (verdict_by self gxid.0) → IsOk result × (D.state disk.new ≡ D.state disk.old) }
        // what is written is written in the slot at the end: the pair, and once that is on the disk the gate
        ensures made { IfOk result (λ answer. DoesSettle (self.used) gxid.0 wish answer.1 (verdict_by self gxid.0) (D.state disk.old) (D.state disk.new)) }
        ensures broken { OnErr result (DoesBreak (self.used) gxid.0 wish (verdict_by self gxid.0) (D.state disk.old) (D.state disk.new)) }
        ensures full { verdict_by self gxid.0 ≡ None → self.used ≡ self.slots → result ≡ Err (DecideFault.Full (self.slots)) }
        ensures refused { IfErr result (IsSettleRefused self gxid.0 (D.state disk.old) (D.state disk.new) (D.fault_count disk.old) (D.fault_count disk.new)) }
        ensures later { D.fault_count disk.old ≤ D.fault_count disk.new }
        ensures size { (D.state disk.new).size ≡ (D.state disk.old).size }
        // bytes behind the last slot are neither read nor written
        ensures reach { ReachesTo (16 * slots_of (D.state disk.old).size) (D.reach disk.old) (D.reach disk.new) }
        // after every list of opens, settles and stops, with this call too: the disk is their log, and answers are equal
        ensures durable { IfOk result (λ answer. (events : List Event) → Led events (D.state disk.old) true → GoesOn (Settled gxid.0 wish answer.1) events (D.state disk.new) true) }
        ensures durable_err { OnErr result ((events : List Event) → Led events (D.state disk.old) true → GoesOn (SettleBroken gxid.0 wish) events (D.state disk.new) false) }
    {
        let number = gxid.0;
        if let Some(kept) = self.kept(gxid) {
            return Ok((self, kept));
        }
        let slot = self.used();
        if slot == self.slots() {
            return Err(DecideFault::Full(slot));
        }
        let decider = self.with(number, wish)?;
        write_pair(disk, slot, number, wish)?;
        Ok((decider, wish))
    }

    // The decider with a pair more.
    fn with(self, gxid: u64, decision: Decision) -> Result<Decider, DecideFault>
        requires room { self.used < self.slots }
        ensures slots { IfOk result (λ decider. decider.slots ≡ self.slots) }
        ensures used { IfOk result (λ decider. decider.used ≡ self.used + 1) }
        ensures verdicts { IfOk result (λ decider. (g : ℕ) → verdict_by decider g ≡ (if is_at (nat_cmp gxid) g then Some decision else verdict_by self g)) }
        ensures memory { IfErr result (λ fault. fault ≡ DecideFault.OutOfMemory) }
    {
        let Decider {
            slots,
            used,
            mut verdicts,
        } = self;
        verdicts.insert(gxid, decision)?;
        Ok(Decider {
            slots,
            used: used + 1,
            verdicts,
        })
    }
}
