//! The lock table of a node: relation, tuple and transaction locks in eight modes, and those who wait for them in a queue.
#![tactic(auto)]

pub mod answer;
mod book;
mod claims;
mod graph;
mod hold;
mod hold_list;
mod index;
mod key;
pub mod laws;
mod ledger;
mod owner;
mod pair;
mod probe;
mod queue;
mod shelf;
mod slot;
pub mod table;

pub use answer::LockAnswer;
pub use claims::{is_same_claim, is_same_object};
pub use hold::Hold;
pub use hold_list::HoldList;
pub use pair::Pair;
pub use table::LockTable;
