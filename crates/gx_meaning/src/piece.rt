use gx_ids::Node;
use gx_tree::Slice;

/// A command's slice for one segment.
#[derive(Drop)]
pub struct Piece {
    pub node: Node,
    pub slice: Slice,
}
