use gx_ids::{Seq, SessionId};
use gx_tree::Txt;

/// A resource group: at most so many of its sessions' transactions are open at once. Who has no line isn't among its
/// sessions.
#[derive(Drop)]
pub struct SlotGroup {
    pub name: Txt,
    pub limit: u64,
    pub sessions: Seq<SessionId>,
}
