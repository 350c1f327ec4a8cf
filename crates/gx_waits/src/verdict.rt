use gx_ids::{Duplicate, Gxid, Mem, Seq};
use std::alloc::Global;

/// What a round of the detector decides.
#[derive(Drop)]
pub enum Verdict {
    /// No transaction is stuck.
    Nothing,
    /// The least stuck transaction that isn't active, for which the round is dropped.
    Dropped(Gxid),
    /// The transactions to abort, in the order in which they were chosen.
    Victims(Seq<Gxid>),
}

impl Duplicate for Verdict {
    fn copy(&self, alloc: Global) -> Mem<Verdict> {
        match self {
            Verdict::Nothing => Ok(Verdict::Nothing),
            Verdict::Dropped(gxid) => Ok(Verdict::Dropped(*gxid)),
            Verdict::Victims(victims) => Ok(Verdict::Victims(victims.copy(alloc)?)),
        }
    }
}
