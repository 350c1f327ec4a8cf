//! Where a row stands, on which segments a condition can be true, and what a command sends there: one slice for each segment
//! that it concerns.
#![tactic(auto)]

mod fnv;
mod insertion;
mod placement;
mod planning;
mod sending;
mod targets;
mod tuple;

pub use placement::{place, place_value};
pub use planning::{plan, plan_in};
pub use targets::{target, wanted_key};
