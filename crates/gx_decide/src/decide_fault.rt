ghost use Rattle.std.specs.Prelude.{◌≡◌};

use gx_outside::Failed;
use std::alloc::{AllocError, AllocFailed};

/// Why an open or a settle was refused. The disk is then opened again.
#[derive(Clone, Copy, Debug, PartialEq, Eq)]
pub enum DecideFault {
    /// A call on the disk failed.
    Disk,
    /// All slots, so many, have a pair, and none has the transaction.
    Full(u32),
    /// The disk is no log: this slot, counted from 0, is the first that is bad.
    NotLog(u32),
    OutOfMemory,
}

impl From<Failed> for DecideFault {
    ghost use Rattle.gx_decide.specs.declared.decide_fault.DecideFault.TheVariants as fault;

    ghost from_gives = { λ _ e. e ≡ fault.Disk };

    fn from(_error: Failed) -> DecideFault {
        DecideFault::Disk
    }
}

impl From<AllocError> for DecideFault {
    ghost use Rattle.gx_decide.specs.declared.decide_fault.DecideFault.TheVariants as fault;

    ghost from_gives = { λ _ e. e ≡ fault.OutOfMemory };

    fn from(_error: AllocError) -> DecideFault {
        DecideFault::OutOfMemory
    }
}

impl<T: Drop> From<AllocFailed<T>> for DecideFault {
    ghost use Rattle.gx_decide.specs.declared.decide_fault.DecideFault.TheVariants as fault;

    ghost from_gives = { λ _ e. e ≡ fault.OutOfMemory };

    fn from(_error: AllocFailed<T>) -> DecideFault {
        DecideFault::OutOfMemory
    }
}
