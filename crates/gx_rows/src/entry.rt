use crate::LocalStatus;
use gx_ids::Gxid;

/// A transaction that wrote at a segment, and what became of it there.
#[derive(Clone, Copy)]
pub struct XidEntry {
    pub gxid: Gxid,
    pub status: LocalStatus,
}
