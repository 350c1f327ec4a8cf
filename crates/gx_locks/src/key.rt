ghost use Rattle.gx_locks.specs.Hashed.{key_writes};

use gx_ids::Gxid;
use gx_waits::Object;
use std::hash::{Hash, Hasher};

/// What holds are found by: their object, or their transaction.
#[derive(Clone, Copy, PartialEq, Eq)]
pub enum Key {
    On(Object),
    Of(Gxid),
}

impl Hash for Key {
    ghost use Rattle.std.proofs.Common.{rules};
    ghost use Rattle.std.specs.Cmp.Rules.{hashing};

    ghost hash_input = { key_writes };

    ghost respects_eq = { Prim.search (hashing, rules) };

    fn hash<H: Hasher>(&self, state: &mut H) {
        match self {
            Key::On(Object::Relation(table)) => state.write_u8(table.0),
            Key::On(Object::Tuple(rid)) => {
                state.write_u64(rid.gxid.0);
                state.write_u32(rid.cid.0);
                state.write_u32(rid.ordinal);
            }
            Key::On(Object::Transaction(gxid)) => state.write_u64(gxid.0),
            Key::Of(gxid) => state.write_u64(gxid.0),
        }
    }
}
