// A slot of the log, as its bytes say it.
ghost use Rattle.std.specs.Prelude.{◌≡◌, ◌≤◌, ◌+◌, ◌*◌, IfOk};
ghost use Rattle.gx_decide.specs.Deciding.{IsSlotOf, IsSlot};
ghost use Rattle.gx_decide.specs.Disk.{IsCaused, ReachesTo};

use crate::disk::Disk;
use gx_outside::Failed;

// How many bytes a slot has.
pub(crate) const SLOT: u64 = 16;

// How many of them, from the first on, say the transaction and the verdict.
pub(crate) const GATE: u64 = 9;

// The gate of a pair that is kept.
pub(crate) const OPEN: u8 = 1;

// The gate at the end of a log.
pub(crate) const SHUT: u8 = 0;

#[derive(Clone, Copy)]
pub struct Slot {
    pub gxid: u64,
    pub verdict: u8,
    pub gate: u8,
    pub is_blank: bool,
}

// Reads a slot of the disk.
pub(crate) fn read_slot<D: Disk>(disk: &mut D, slot: u32) -> Result<Slot, Failed>
    requires { 16 * slot + 16 ≤ (D.state disk.old).size }
    ensures slot { IfOk result (IsSlot (D.state disk.old).seen slot) }
    ensures state { D.state disk.new ≡ D.state disk.old }
    ensures reach { ReachesTo (16 * slot + 16) (D.reach disk.old) (D.reach disk.new) }
    ensures cause { IsCaused (D.fault_count disk.old) (D.fault_count disk.new) result }
{
    let mut bytes = [0u8; 16];
    disk.read(SLOT * slot as u64, &mut bytes)?;
    Ok(slot_of(bytes))
}

fn slot_of(bytes: [u8; 16]) -> Slot
    ensures { IsSlotOf bytes result }
{
    let [a, b, c, d, e, f, g, h, verdict, gate, i, j, k, l, m, n] = bytes;
    Slot {
        gxid: u64::from_le_bytes([a, b, c, d, e, f, g, h]),
        verdict,
        gate,
        is_blank: [i, j, k, l, m, n] == [0; 6],
    }
}
