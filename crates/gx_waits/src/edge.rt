ghost use Rattle.std.specs.Prelude.{◌↔◌, ◌≡◌, IsTrue};

use gx_ids::{Duplicate, Gxid, Mem};
use std::alloc::Global;

/// One transaction waits for another. A dotted edge is a wait for a tuple, which the holder may give back before it
/// ends; the lock behind a solid edge goes only at the holder's end.
#[derive(Clone, Copy, PartialEq, Eq)]
pub struct Edge {
    pub waiter: Gxid,
    pub holder: Gxid,
    pub dotted: bool,
}

impl Edge {
    ghost use Rattle.gx_waits.specs.Edge.{names};

    /// Whether the transaction is the edge's waiter or its holder.
    pub fn names(&self, gxid: Gxid) -> bool
        ensures { result ≡ names gxid self.now }
    {
        self.waiter == gxid || self.holder == gxid
    }
}

impl Duplicate for Edge {
    fn copy(&self, _alloc: Global) -> Mem<Edge> {
        Ok(*self)
    }
}
