//! Laws of resource groups, of every legal history whose lines were started where the groups let them.
#![tactic(auto)]

pub mod laws;
