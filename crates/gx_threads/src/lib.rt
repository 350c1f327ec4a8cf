//! Nodes in threads: each session, each segment and the detector in a thread of its own, and the calling thread for the coordinator. Each
//! node's cell stands behind a lock of its own.
#![tactic(auto)]

mod calling;
mod flag;
mod hall;
mod lock;
mod opening;
mod parts;
mod resending;
mod serving;
mod threads;

pub use threads::{ThreadEnd, run_threads};
