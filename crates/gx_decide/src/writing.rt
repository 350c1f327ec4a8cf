// The writes that keep a pair, and the one that shuts a gate.
ghost use Rattle.std.specs.Prelude.{◌≡◌, ◌≢◌, ◌≤◌, ◌+◌, ◌*◌, ◌++◌, ◌∷◌, [], ◌==◌, if◌then◌else◌, length, OnOk, OnErr};
ghost use Rattle.std.specs.Int.{w64, to_le_bytes};
ghost use Rattle.gx_decide.specs.Log.{byte_of};
ghost use Rattle.gx_decide.specs.Calls.{AreMade, AreMadePartly, Sync, Write, settling, shutting};
ghost use Rattle.gx_decide.specs.Disk.{IsCaused, ReachesTo};

use crate::decision::Decision;
use crate::disk::Disk;
use crate::slot::{GATE, OPEN, SHUT, SLOT};
use gx_outside::Failed;

// Keeps a pair in a slot. The pair is on the disk before its gate is opened.
pub(crate) fn write_pair<D: Disk>(
    disk: &mut D,
    slot: u32,
    gxid: u64,
    decision: Decision,
) -> Result<(), Failed>
    requires { 16 * slot + 16 ≤ (D.state disk.old).size }
    ensures ok { OnOk result (AreMade (settling slot gxid decision) (D.state disk.old) (D.state disk.new)) }
    ensures err { OnErr result (AreMadePartly (settling slot gxid decision) (D.state disk.old) (D.state disk.new)) }
    ensures size { (D.state disk.new).size ≡ (D.state disk.old).size }
    ensures reach { ReachesTo (16 * slot + 16) (D.reach disk.old) (D.reach disk.new) }
    ensures cause { IsCaused (D.fault_count disk.old) (D.fault_count disk.new) result }
{
    let at = SLOT * slot as u64;
    write_synced(disk, at, &pair_bytes(gxid, decision))?;
    write_synced(disk, at + GATE, &[OPEN])?;
    Ok(())
}

// Shuts a slot's gate, unless it is shut.
pub(crate) fn shut_gate<D: Disk>(disk: &mut D, slot: u32, gate: u8) -> Result<(), Failed>
    requires { gate ≢ 0 → 16 * slot + 16 ≤ (D.state disk.old).size }
    ensures ok { OnOk result (AreMade (if gate == 0 then [] else shutting slot) (D.state disk.old) (D.state disk.new)) }
    ensures err { OnErr result (AreMadePartly (if gate == 0 then [] else shutting slot) (D.state disk.old) (D.state disk.new)) }
    ensures size { (D.state disk.new).size ≡ (D.state disk.old).size }
    ensures reach { gate ≢ 0 → ReachesTo (16 * slot + 16) (D.reach disk.old) (D.reach disk.new) }
    ensures unmoved { gate ≡ 0 → D.reach disk.new ≡ D.reach disk.old }
    ensures cause { IsCaused (D.fault_count disk.old) (D.fault_count disk.new) result }
{
    if gate == SHUT {
        return Ok(());
    }
    write_synced(disk, SLOT * slot as u64 + GATE, &[SHUT])?;
    Ok(())
}

// Writes bytes, and waits until they are on the disk.
fn write_synced<D: Disk>(disk: &mut D, at: u64, bytes: &[u8]) -> Result<(), Failed>
    requires { at + length bytes.now ≤ (D.state disk.old).size }
    ensures ok { OnOk result (AreMade (Write at bytes.now ∷ Sync ∷ []) (D.state disk.old) (D.state disk.new)) }
    ensures err { OnErr result (AreMadePartly (Write at bytes.now ∷ Sync ∷ []) (D.state disk.old) (D.state disk.new)) }
    ensures reach { ReachesTo (at + length bytes.now) (D.reach disk.old) (D.reach disk.new) }
    ensures size { (D.state disk.new).size ≡ (D.state disk.old).size }
    ensures cause { IsCaused (D.fault_count disk.old) (D.fault_count disk.new) result }
{
    disk.write(at, bytes)?;
    disk.sync()?;
    Ok(())
}

fn pair_bytes(gxid: u64, decision: Decision) -> [u8; 9]
    ensures { result ≡ to_le_bytes w64 gxid ++ byte_of decision ∷ [] }
{
    let [a, b, c, d, e, f, g, h] = gxid.to_le_bytes();
    let verdict = match decision {
        Decision::Commit => 1,
        Decision::Abort => 2,
    };
    [a, b, c, d, e, f, g, h, verdict]
}
