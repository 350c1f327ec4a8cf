//! A driver of nodes apart in one thread: it asks each node for what the schedule asks for, and makes one run of their histories.
#![tactic(auto)]

mod driving;
pub mod running;
mod seen;
mod trying;

pub use running::{ApartRun, run_apart};
