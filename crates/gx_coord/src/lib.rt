//! The coordinator: what a session or a link brings changes it by its rule.
//!
//! A large value that nobody takes is dropped by `drop`, also where memory has run out: what is dropped in place is taken apart in
//! the proof of the function, field by field.
#![tactic(auto)]

mod admitted;
mod again;
mod answers;
mod asking;
mod books;
mod cancelling;
mod completing;
pub mod coord;
mod dispatch;
mod ends;
mod event;
mod faults;
mod finished;
pub mod left;
mod lines;
mod locking;
mod making;
mod messages;
mod orders;
mod places;
mod probe;
mod rechecking;
mod replies;
mod resuming;
mod room;
mod rounds;
mod sending;
mod snapshots;
mod starting;
mod statuses;
mod stepping;
pub mod work;

pub use coord::Coord;
pub use left::Left;
pub use work::{Command, Session, Work};
