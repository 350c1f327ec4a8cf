//! A segment: what comes by a link changes it by its rule.
//!
//! A large value that nobody takes is dropped by `drop`, also where memory has run out: what is dropped in place is taken apart in
//! the proof of the function, field by field.
#![tactic(auto)]

pub mod collecting;
mod commands;
mod done;
mod entries;
mod executing;
mod messages;
mod ordering;
mod probe;
mod room;
pub mod segment;
mod sending;
mod starting;
mod stepping;
mod waits;

pub use collecting::LastReport;
pub use segment::Segment;
