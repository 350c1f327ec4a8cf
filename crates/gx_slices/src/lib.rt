//! What a segment holds of rows, transactions and locks: who wrote what, what became of them here, what it shows to a reader, and what
//! a command does there.
//!
//! A large value that nobody takes is dropped by `drop`, also where memory has run out: what is dropped in place is taken apart in
//! the proof of the function, field by field.
#![tactic(auto)]

mod answering;
mod change;
mod changing;
mod changing_row;
mod changing_rows;
pub mod current;
mod entries;
mod finding;
pub mod held;
mod inserting;
pub mod kept;
mod locked;
mod newest;
mod no_rows;
mod picking;
mod probe;
pub mod progress;
mod reading;
pub mod running;
mod selecting;
mod setting;
mod shown_row;
pub mod store;
mod suspending;
mod sweeping;
mod writing;

pub use current::Current;
pub use held::{Entry, Held};
pub use kept::KeptRows;
pub use progress::Progress;
pub use running::{Ran, go_on};
pub use store::LocalStore;
pub use suspending::{suspend, wake};
