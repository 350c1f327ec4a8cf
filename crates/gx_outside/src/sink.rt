ghost use Rattle.std.specs.Prelude.{◌≡◌, ◌<◌, List, ℕ, length, IfOk};
ghost use Rattle.std.specs.declared.option.Option.{Option};
ghost use Rattle.std.specs.Io.KnownBytes.{WriteAppends};
ghost use Rattle.gx_outside.specs.Causes.{HasCause, IsWritePart};

use crate::source::Failed;

/// Where bytes go.
pub trait Sink {
    /// The bytes that were written, where that is told.
    ghost written: { Self → Option (List ℕ) };

    /// How often it has failed.
    ghost fault_count: { Self → ℕ };

    /// Takes bytes from the front of `bytes`, at least one, and answers how many.
    fn write(&mut self, bytes: &[u8]) -> Result<usize, Failed>
        requires { 0 < length bytes.now }
        ensures part { IfOk result (IsWritePart bytes.now) }
        ensures bytes { WriteAppends (written self.old) (written self.new) result bytes.now }
        ensures cause { HasCause (fault_count self.old) (fault_count self.new) result };

    /// How often it has failed, up to the greatest u64. The count never falls.
    fn faults(&self) -> u64
        ensures { result ≡ fault_count self.now };
}
