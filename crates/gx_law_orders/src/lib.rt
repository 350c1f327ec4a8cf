//! How much is sent and received is bounded by what has happened in a run.
#![tactic(auto)]

pub mod deliveries;
pub mod orders;
