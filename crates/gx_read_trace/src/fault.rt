use gx_ids::OutOfMemory;
use std::alloc::AllocFailed;

/// Why bytes aren't read as what they show.
#[derive(Clone, Copy)]
pub enum TraceFault {
    /// The line of this number, from 1, is the first with which no text of a run goes on; the end of the bytes counts as a line.
    NotATrace(u64),
    OutOfMemory,
}

impl From<OutOfMemory> for TraceFault {
    ghost use Rattle.std.specs.Prelude.{◌≡◌};
    ghost use Rattle.gx_read_trace.specs.declared.fault.TraceFault.TheVariants as fault;

    ghost from_gives = { λ _ e. e ≡ fault.OutOfMemory };

    fn from(_error: OutOfMemory) -> TraceFault {
        TraceFault::OutOfMemory
    }
}

impl<T: Drop> From<AllocFailed<T>> for TraceFault {
    ghost use Rattle.std.specs.Prelude.{◌≡◌};
    ghost use Rattle.gx_read_trace.specs.declared.fault.TraceFault.TheVariants as fault;

    ghost from_gives = { λ _ e. e ≡ fault.OutOfMemory };

    fn from(_error: AllocFailed<T>) -> TraceFault {
        TraceFault::OutOfMemory
    }
}
