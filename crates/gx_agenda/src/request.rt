use gx_ids::{Gxid, Node};

/// A segment and a transaction, of which an answer is awaited; ordered by segment, then by transaction.
#[derive(Clone, Copy, PartialEq, Eq, PartialOrd, Ord)]
pub struct Request {
    pub segment: Node,
    pub gxid: Gxid,
}
