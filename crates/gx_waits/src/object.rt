ghost use Rattle.std.specs.Prelude.{◌≡◌};

use gx_ids::{Duplicate, Gxid, Mem, Rid, Table};
use std::alloc::Global;

/// What a lock is taken on.
#[derive(Clone, Copy, PartialEq, Eq, PartialOrd, Ord)]
pub enum Object {
    Relation(Table),
    Tuple(Rid),
    Transaction(Gxid),
}

impl Object {
    ghost use Rattle.gx_waits.specs.Claim.{is_tuple};

    /// Whether the lock is one on a tuple, the only kind that is given back before the transaction ends.
    pub fn is_tuple(&self) -> bool
        ensures { result ≡ is_tuple self.now }
    {
        match self {
            Object::Tuple(_) => true,
            _ => false,
        }
    }
}

impl Duplicate for Object {
    fn copy(&self, _alloc: Global) -> Mem<Object> {
        Ok(*self)
    }
}
