ghost use Rattle.std.specs.Prelude.{◌≡◌, ◌<◌, List, ℕ, OnOk, length};
ghost use Rattle.std.specs.declared.option.Option.{Option};
ghost use Rattle.std.specs.Io.{ReadsAtMost};
ghost use Rattle.std.specs.Io.KnownBytes.{ReadConsumes};
ghost use Rattle.gx_outside.specs.Causes.{HasCause};

/// The outside refused a transfer. It comes only where the count of faults rose in that call.
#[derive(Clone, Copy)]
pub struct Failed;

/// Where bytes come from.
pub trait Source {
    /// The bytes that are left, where that is told.
    ghost left: { Self → Option (List ℕ) };

    /// How often it has failed.
    ghost fault_count: { Self → ℕ };

    /// Moves the next bytes of what is left to the front of `buf`, and answers how many. 0 means the end. A read that went well has counted no
    /// fault.
    fn read(&mut self, buf: &mut [u8]) -> Result<usize, Failed>
        requires { 0 < length buf.old }
        ensures bound { ReadsAtMost result buf.new }
        ensures bytes { ReadConsumes (left self.old) (left self.new) result buf.new }
        ensures cause { HasCause (fault_count self.old) (fault_count self.new) result }
        ensures calm { OnOk result (fault_count self.new ≡ fault_count self.old) };

    /// How often it has failed, up to the greatest u64. The count never falls.
    fn faults(&self) -> u64
        ensures { result ≡ fault_count self.now };
}
