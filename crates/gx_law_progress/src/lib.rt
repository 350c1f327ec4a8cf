//! Lone rounds cancel transactions, so there are no more of them than transactions.
#![tactic(auto)]

pub mod rounds;
