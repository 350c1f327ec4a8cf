ghost use Rattle.gx_sweep.specs.Hashed.{place_writes};

use gx_ids::Table;
use gx_tree::Value;
use std::hash::{Hash, Hasher};

/// A value of the distribution column of a table.
#[derive(Drop, PartialEq, Eq)]
pub struct TableKey {
    pub table: Table,
    pub key: Value,
}

impl Hash for TableKey {
    ghost use Rattle.std.proofs.Common.{rules};
    ghost use Rattle.std.specs.Cmp.Rules.{hashing};

    ghost hash_input = { place_writes };

    ghost respects_eq = { Prim.search (hashing, rules) };

    fn hash<H: Hasher>(&self, state: &mut H) {
        state.write_u8(self.table.0);
        match &self.key {
            Value::Int(number) => number.hash(state),
            Value::Text(text) => text.as_slice().hash(state),
        }
    }
}
