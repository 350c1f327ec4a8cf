//! Distributed snapshots, and the horizon below which nobody needs to be told apart any more.
#![tactic(auto)]

pub mod horizons;
mod probe;
pub mod snapshot;

pub use horizons::horizon;
pub use snapshot::{Snapshot, take};
