//! Generated work moves money between accounts, and makes and loses none.
#![tactic(auto)]

pub mod laws;
