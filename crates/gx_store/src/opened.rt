use gx_ids::{Gxid, SessionId};

/// A transaction that has begun and not ended, with its session.
#[derive(Clone, Copy)]
pub struct Opened {
    pub gxid: Gxid,
    pub session: SessionId,
}
