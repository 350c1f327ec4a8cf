ghost use Rattle.std.specs.Prelude.{◌≡◌};

use crate::edge::Edge;
use crate::object::Object;
use gx_ids::{Duplicate, Gxid, Mem};
use gx_modes::Mode;
use std::alloc::Global;

/// A lock that a transaction holds or waits for at one node.
#[derive(Clone, Copy)]
pub struct Claim {
    pub gxid: Gxid,
    pub object: Object,
    pub mode: Mode,
}

impl Claim {
    ghost use Rattle.gx_waits.specs.Claim.{edge_of};

    /// The edge from this wait to a claim that it meets.
    pub fn edge_to(&self, other: &Claim) -> Edge
        ensures { result ≡ edge_of self.now other.now }
    {
        Edge {
            waiter: self.gxid,
            holder: other.gxid,
            dotted: self.object.is_tuple(),
        }
    }
}

impl Duplicate for Claim {
    fn copy(&self, _alloc: Global) -> Mem<Claim> {
        Ok(*self)
    }
}
