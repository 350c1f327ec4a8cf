ghost use Rattle.std.specs.Prelude.{◌≡◌, ◌≤◌, ◌+◌, ℕ, length, OnOk, OnErr};
ghost use Rattle.gx_decide.specs.Disk.{DiskState, IsCaused, IsRead, ReachesTo, Written, Touched, Synced, Stayed};

use gx_outside::Failed;

/// A disk of a fixed length. What was written since the last sync may be lost in part, and only that.
pub trait Disk {
    /// What a read gives, and where a stop may leave any byte.
    ghost state: { Self → DiskState };

    /// The end of the furthest range that a read or a write was asked for: behind it no byte was read or written.
    ghost reach: { Self → ℕ };

    /// How often it has failed.
    ghost fault_count: { Self → ℕ };

    /// How many bytes it has.
    fn len(&self) -> u64
        ensures { result ≡ (state self.now).size };

    /// Reads the bytes from a place on.
    fn read(&mut self, at: u64, buf: &mut [u8]) -> Result<(), Failed>
        requires { at + length buf.old ≤ (state self.old).size }
        ensures length { length buf.new ≡ length buf.old }
        ensures ok { OnOk result (IsRead (state self.old).seen at buf.new) }
        ensures state { state self.new ≡ state self.old }
        ensures reach { ReachesTo (at + length buf.old) (reach self.old) (reach self.new) }
        ensures cause { IsCaused (fault_count self.old) (fault_count self.new) result };

    /// Writes bytes from a place on. They are pending until a sync succeeds; after a fault any bytes may stand there.
    fn write(&mut self, at: u64, bytes: &[u8]) -> Result<(), Failed>
        requires { at + length bytes.now ≤ (state self.old).size }
        ensures ok { OnOk result (Written at bytes.now (state self.old) (state self.new)) }
        ensures err { OnErr result (Touched at (length bytes.now) (state self.old) (state self.new)) }
        ensures reach { ReachesTo (at + length bytes.now) (reach self.old) (reach self.new) }
        ensures cause { IsCaused (fault_count self.old) (fault_count self.new) result };

    /// Makes all that was written last.
    fn sync(&mut self) -> Result<(), Failed>
        ensures ok { OnOk result (Synced (state self.old) (state self.new)) }
        ensures err { OnErr result (Stayed (state self.old) (state self.new)) }
        ensures reach { ReachesTo 0 (reach self.old) (reach self.new) }
        ensures cause { IsCaused (fault_count self.old) (fault_count self.new) result };

    /// How often it has failed, up to the greatest u64. The count never falls.
    fn faults(&self) -> u64
        ensures { result ≡ fault_count self.now };
}
