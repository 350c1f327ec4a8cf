//! Slots of resource groups: at most so many sessions of a group hold one at once, and they take them in the order in which
//! they asked.
#![tactic(auto)]

mod group;
pub mod groups;
pub mod laws;
mod making;
mod members;
mod probe;
pub mod seat;

pub use groups::Groups;
pub use seat::{Seat, Standing};
