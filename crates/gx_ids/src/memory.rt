use std::alloc::{AllocError, AllocFailed};
use std::fmt;

/// Memory ran out. Any call that allocates may answer so.
#[derive(Clone, Copy, Debug)]
pub struct OutOfMemory;

/// What may run out of memory.
pub type Mem<T> = Result<T, OutOfMemory>;

impl fmt::Display for OutOfMemory {
    fn fmt<W: fmt::Write>(&self, f: &mut fmt::Formatter<W>) -> fmt::Result {
        write!(f, "out of memory")
    }
}

impl std::error::Error for OutOfMemory {}

impl From<AllocError> for OutOfMemory {
    fn from(_error: AllocError) -> OutOfMemory {
        OutOfMemory
    }
}

impl<T: Drop> From<AllocFailed<T>> for OutOfMemory {
    fn from(_error: AllocFailed<T>) -> OutOfMemory {
        OutOfMemory
    }
}
