use gx_ids::OutOfMemory;
use std::alloc::AllocFailed;

/// What is wrong with the names or the kinds of a line.
#[derive(Clone, Copy)]
pub enum NameFault {
    Syntax,
    UnknownTable,
    UnknownColumn,
    TableExists,
    TypeMismatch,
    KeyUpdate,
}

/// Why a line was not resolved.
#[derive(Clone, Copy)]
pub enum ResolveError {
    Fault(NameFault),
    OutOfMemory,
}

impl From<NameFault> for ResolveError {
    ghost use Rattle.std.specs.Prelude.{◌≡◌};
    ghost use Rattle.gx_resolve.specs.declared.fault.ResolveError.TheVariants as error;

    ghost from_gives = { λ fault e. e ≡ error.Fault fault };

    fn from(fault: NameFault) -> ResolveError {
        ResolveError::Fault(fault)
    }
}

impl From<OutOfMemory> for ResolveError {
    ghost use Rattle.std.specs.Prelude.{◌≡◌};
    ghost use Rattle.gx_resolve.specs.declared.fault.ResolveError.TheVariants as error;

    ghost from_gives = { λ _ e. e ≡ error.OutOfMemory };

    fn from(_error: OutOfMemory) -> ResolveError {
        ResolveError::OutOfMemory
    }
}

impl<T: Drop> From<AllocFailed<T>> for ResolveError {
    ghost use Rattle.std.specs.Prelude.{◌≡◌};
    ghost use Rattle.gx_resolve.specs.declared.fault.ResolveError.TheVariants as error;

    ghost from_gives = { λ _ e. e ≡ error.OutOfMemory };

    fn from(_error: AllocFailed<T>) -> ResolveError {
        ResolveError::OutOfMemory
    }
}
