use gx_ids::{Gxid, Seq};

/// What came of a request for a lock.
#[derive(Drop)]
pub enum LockAnswer {
    Granted,
    /// The request stands as a wait for these transactions, rising.
    Waits(Seq<Gxid>),
}
