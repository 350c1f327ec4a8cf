use gx_ids::Node;

/// A segment restarts once the message of this number was sent to it.
#[derive(Clone, Copy, PartialEq, Eq)]
pub struct SegmentRestart {
    pub segment: Node,
    pub number: u64,
}
