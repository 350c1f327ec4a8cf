ghost use Rattle.std.specs.Prelude.{◌≡◌};

use gx_ids::{Gxid, Node};
use gx_waits::PlacedEdge;

/// Where an edge counts, and where it needs that one counts, so that it stays.
#[derive(Clone, Copy, PartialEq, Eq, PartialOrd, Ord)]
pub enum Place {
    /// The transaction waits.
    Anywhere(Gxid),
    /// It waits on that node.
    At(Node, Gxid),
    /// It is waited for.
    Awaited(Gxid),
}

/// What a reduction leaves: the stuck edges, or the core of them alone, where each waiter is waited for too.
#[derive(Clone, Copy)]
pub enum Aim {
    Stuck,
    Core,
}

impl Place {
    ghost use Rattle.gx_detect.specs.Place.{need_of};

    /// Where somebody has to wait, so that the edge stays: the holder, on the edge's node where it is dotted.
    pub fn needed_by(edge: &PlacedEdge) -> Place
        ensures { result ≡ need_of edge.now }
    {
        if edge.edge.dotted {
            Place::At(edge.node, edge.edge.holder)
        } else {
            Place::Anywhere(edge.edge.holder)
        }
    }
}
