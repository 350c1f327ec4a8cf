use gx_ids::{Cid, Gxid};

/// The newest write to a row that isn't aborted: by which command, and of which transaction. Who wrote is not known any
/// more where its gxid is below the horizon; then it ended before each snapshot that there is or will be.
#[derive(Clone, Copy)]
pub struct Current {
    pub writer: Option<Gxid>,
    pub cid: Cid,
}
