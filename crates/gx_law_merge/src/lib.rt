//! Nodes apart: histories of all nodes that fit together make one run, in the order of their moments, and what holds of every run of
//! the machine holds of it.
#![tactic(auto)]

pub mod apart;
pub mod merged;
pub mod slots;
