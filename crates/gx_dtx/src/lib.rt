//! The coordinator's transactions: their numbers, statuses and snapshots, and both ways to commit.
#![tactic(auto)]

pub mod change;
mod changes;
pub mod dtx;
pub mod due;
mod found;
pub mod laws;
mod map;
pub mod nodes;
pub mod order;
pub mod outcome;
pub mod phase;
mod probe;
mod replies;
pub mod status;
pub mod taken;
pub mod txn;
mod txns;

pub use dtx::Dtx;
pub use outcome::{DtxOut, Outcome};
pub use phase::Phase;
pub use status::Status;
pub use txn::Txn;
