//! Two slices at once, seen: gates that each wait for the other.
#![tactic(auto)]

mod gate;
mod meeting;
#[cfg(test)]
mod tests;

pub use gate::Meet;
pub use meeting::{Met, meet};
