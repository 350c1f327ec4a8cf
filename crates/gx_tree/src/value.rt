ghost use Rattle.std.specs.Prelude.{◌≡◌};
ghost use Rattle.gx_tree.specs.Value.{IsSameKind, value_order};

use crate::txt::Txt;
use gx_ids::{Duplicate, Mem};
use std::alloc::Global;
use std::cmp::Ordering;

/// A value of a column: a whole number or a text.
#[derive(Drop, PartialEq, Eq, PartialOrd, Ord)]
pub enum Value {
    Int(i64),
    Text(Txt),
}

impl Value {
    /// The order of two values of one kind: numbers by value, texts by their bytes.
    pub fn compare(&self, other: &Value) -> Ordering
        requires { IsSameKind self.now other.now }
        ensures { result ≡ value_order self.now other.now }
    {
        self.cmp(other)
    }
}

impl Duplicate for Value {
    fn copy(&self, alloc: Global) -> Mem<Value> {
        match self {
            Value::Int(number) => Ok(Value::Int(*number)),
            Value::Text(text) => Ok(Value::Text(text.copy(alloc)?)),
        }
    }
}
