// Links, and their messages by number.
ghost use Rattle.std.specs.Prelude.{◌≡◌};
ghost use Rattle.gx_agenda.specs.Links.{fault_link, link_of};

use gx_ids::Node;
use gx_script::LinkFault;

/// A message by its link and its number. A segment has two links: the one to it has twice its number, and the one from it one
/// more.
#[derive(Clone, Copy, PartialEq, Eq, PartialOrd, Ord)]
pub struct LinkMessage {
    pub link: usize,
    pub number: u64,
}

/// The link from one node to another.
pub fn link_between(from: Node, to: Node) -> usize
    ensures { result ≡ link_of from to }
{
    if from.0 == 0 {
        2 * usize::from(to.0)
    } else {
        2 * usize::from(from.0) + 1
    }
}

/// The link that a fault is about.
pub fn faulty_link(fault: LinkFault) -> usize
    ensures { result ≡ fault_link fault }
{
    if fault.to_segment {
        2 * usize::from(fault.segment.0)
    } else {
        2 * usize::from(fault.segment.0) + 1
    }
}
