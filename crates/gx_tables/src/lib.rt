//! The tables that nodes show, wherever they stand: in one world, or each apart.
#![tactic(auto)]

pub mod laws;
pub mod rows;

pub use rows::last_rows;
