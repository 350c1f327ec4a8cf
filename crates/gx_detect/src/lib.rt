//! The Global Deadlock Detector (after the idea of Lyu et al., SIGMOD 2021). Its rounds at the coordinator: each asks every
//! segment for its wait graph, and is decided once all have come. The reduction of waits: which edges are stuck, the core of
//! them, and whom to abort; which edges go and who is chosen are this project's own.
#![tactic(auto)]

pub mod choice;
mod counts;
pub mod detector;
mod edges;
pub mod laws;
mod names;
mod node_counts;
mod place;
mod probe;
mod reduced;
pub mod reduction;
mod reports;
mod rest;
mod settle;
mod tally;
mod verdict;
mod wants;

pub use choice::{core, victims};
pub use detector::Detector;
pub use reduction::reduce;
