//! Locks in every run of the machine: `holds` has what nodes hold and who waits there, `rounds` the detector's rounds, `blocking`
//! what a round's graphs leave, and `cancelled` whom it names and what becomes of them.
#![tactic(auto)]

pub mod blocking;
pub mod cancelled;
pub mod holds;
pub mod rounds;
