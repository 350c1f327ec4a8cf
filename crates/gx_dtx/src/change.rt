// A transaction's change, as the rules say it. A call makes it of the transaction where that stands.

use crate::outcome::DtxOut;
use crate::phase::Phase;

/// What a call makes of a transaction.
#[derive(Drop)]
pub enum Step {
    /// It stays as it is.
    Stays,
    GoesTo(Phase),
    /// Nobody needs to know of it any more.
    Leaves,
}

/// A transaction's step, and what the call has come to.
#[derive(Drop)]
pub struct Change {
    pub step: Step,
    pub out: DtxOut,
}
