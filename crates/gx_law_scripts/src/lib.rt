//! Scripts that were read: they have what the laws of runs ask for, so every run of one is a legal history.
#![tactic(auto)]

pub mod laws;
