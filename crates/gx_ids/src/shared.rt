ghost use Rattle.std.specs.Prelude.{◌≡◌, IfOk};

use crate::duplicate::Duplicate;
use crate::memory::Mem;
use std::alloc::Global;
use std::marker::Model;
use std::sync::Arc;

/// A value that several own, who all read it and never change it. A copy is one owner more. Contracts see it as that value.
#[derive(Drop)]
pub struct Shared<T> {
    inner: Arc<T, Global>,
}

impl<T> Model for Shared<T> {
    ghost Value = { T };

    ghost coded = { T.code };

    ghost view = { λ shared. shared.inner.value };
}

impl<T> Shared<T> {
    /// The value.
    pub fn get(&self) -> &T
        ensures { result.now ≡ self.now }
    {
        &self.inner
    }
}

impl<T: Drop> Shared<T> {
    /// Moves a value to the heap, for one owner.
    pub fn new(alloc: Global, value: T) -> Mem<Shared<T>>
        ensures { IfOk result (λ shared. shared ≡ value) }
    {
        Ok(Shared {
            inner: Arc::new(alloc, value)?,
        })
    }
}

impl<T: PartialEq> PartialEq for Shared<T> {
    ghost eq = { λ x y. T.eq x y };

    ghost laws = { T.laws };

    fn eq(&self, other: &Shared<T>) -> bool {
        *self.get() == *other.get()
    }
}

impl<T: Eq> Eq for Shared<T> {
    ghost laws = { T.Eq.laws };
}

impl<T: Drop> Duplicate for Shared<T> {
    fn copy(&self, _alloc: Global) -> Mem<Shared<T>> {
        Ok(Shared {
            inner: self.inner.clone()?,
        })
    }
}
