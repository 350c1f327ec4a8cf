use crate::edge::Edge;
use gx_ids::{Duplicate, Mem, Node};
use std::alloc::Global;

/// An edge and the node where it stands.
#[derive(Clone, Copy)]
pub struct PlacedEdge {
    pub node: Node,
    pub edge: Edge,
}

impl Duplicate for PlacedEdge {
    fn copy(&self, _alloc: Global) -> Mem<PlacedEdge> {
        Ok(*self)
    }
}
