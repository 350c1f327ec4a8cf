//! The nodes of a script and every message ever sent between them: a run grows event by event.
#![tactic(auto)]

mod admitting;
mod arriving;
mod graphs;
pub mod letter;
pub mod letters;
mod looking;
mod making;
mod moves;
mod network;
mod tables;
mod turning;
mod waiting;
pub mod world;

pub use letter::Letter;
pub use letters::{Letters, Place};
pub use network::Nodes;
pub use world::World;
