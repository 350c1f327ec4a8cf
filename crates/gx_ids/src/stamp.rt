ghost use Rattle.std.specs.Prelude.{◌≡◌, ◌+◌, ◌<◌, ◌^◌, max};

use crate::ids::Node;

/// A moment of a node's Lamport clock. Moments are ordered by clock, and those of one clock by node.
#[derive(Clone, Copy, PartialEq, Eq, PartialOrd, Ord)]
pub struct Stamp {
    pub clock: u64,
    pub node: Node,
}

impl Stamp {
    /// The moment of a node's next event, which comes after its last and after the clock that it heard.
    pub fn after(self, heard: u64, node: Node) -> Stamp
        requires own { self.clock + 1 < 2 ^ 64 }
        requires heard { heard + 1 < 2 ^ 64 }
        ensures { result ≡ record { clock = max self.clock heard + 1; node = node } }
    {
        Stamp {
            clock: self.clock.max(heard) + 1,
            node,
        }
    }
}
