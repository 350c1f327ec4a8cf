ghost use Rattle.std.specs.Prelude.{◌≡◌, IfOk};

use crate::ids::{Cid, Gxid, Lxid, Node, SessionId, Table};
use crate::memory::Mem;
use crate::rid::Rid;
use std::alloc::Global;

/// A type whose values can be copied, where there is memory.
pub trait Duplicate: Sized {
    /// An equal value, which a later change of this one leaves as it is.
    fn copy(&self, alloc: Global) -> Mem<Self>
        ensures { IfOk result (λ copy. copy ≡ self.now) };
}

/// A copy of each item, in order.
pub fn copies<T: Duplicate + Drop>(alloc: Global, items: &[T]) -> Mem<Vec<T>>
    ensures { IfOk result (λ copies. copies.items ≡ items.now) }
{
    let mut copies = Vec::with_capacity(alloc, items.len())?;
    for item in items {
        copies.push(item.copy(alloc)?)?;
    }
    Ok(copies)
}

impl<T: Duplicate + Drop> Duplicate for Option<T> {
    fn copy(&self, alloc: Global) -> Mem<Option<T>> {
        match self {
            None => Ok(None),
            Some(value) => Ok(Some(value.copy(alloc)?)),
        }
    }
}

impl Duplicate for u8 {
    fn copy(&self, _alloc: Global) -> Mem<u8> {
        Ok(*self)
    }
}

impl Duplicate for u64 {
    fn copy(&self, _alloc: Global) -> Mem<u64> {
        Ok(*self)
    }
}

impl Duplicate for Gxid {
    fn copy(&self, _alloc: Global) -> Mem<Gxid> {
        Ok(*self)
    }
}

impl Duplicate for Node {
    fn copy(&self, _alloc: Global) -> Mem<Node> {
        Ok(*self)
    }
}

impl Duplicate for Rid {
    fn copy(&self, _alloc: Global) -> Mem<Rid> {
        Ok(*self)
    }
}
