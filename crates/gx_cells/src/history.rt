use gx_ids::Node;
use gx_links::LinkOut;
use gx_script::Script;
use gx_store::Steps;
use std::alloc::Global;
use std::sync::Arc;

/// What a node has done, with the link on which its messages went, and how often its journal had failed before.
#[derive(Drop)]
pub struct History {
    pub alloc: Global,
    pub script: Arc<Script, Global>,
    pub node: Node,
    pub first: u64,
    pub steps: Steps,
    pub out: LinkOut,
}
