use gx_agenda::OwnSlots;
use gx_links::LinkOut;
use gx_script::Script;
use gx_store::Steps;
use std::alloc::Global;
use std::sync::Arc;

/// What the coordinator has done, with the links on which its messages went, one to each segment, how often its journal had failed
/// before, and the slots of groups that its steps tell.
#[derive(Drop)]
pub struct CoordHistory {
    pub alloc: Global,
    pub script: Arc<Script, Global>,
    pub first: u64,
    pub steps: Steps,
    pub outs: Vec<LinkOut>,
    pub slots: OwnSlots,
}
