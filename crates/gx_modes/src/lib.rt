// The eight modes of locks, and which of them conflict.
#![tactic(auto)]

pub mod modes;

pub use modes::{Mode, conflicts};
