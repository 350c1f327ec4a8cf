//! The run that the histories of all nodes make.
#![tactic(auto)]

pub mod front;
pub mod merging;

pub use merging::{NodeHistory, merge};
