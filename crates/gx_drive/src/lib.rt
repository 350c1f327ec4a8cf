//! The drivers of a script in a fixed order and by a seed: each does one of what is enabled, until no session is unfinished, its turns
//! are spent, or nothing is enabled.
#![tactic(auto)]

pub mod agenda;
mod detecting;
mod drawing;
pub mod empty;
pub mod end;
mod ends;
mod links;
mod listing;
mod moves;
pub mod ordered;
pub mod refused;
pub mod seeded;
mod stuck;
mod turn;

pub use agenda::Agenda;
pub use empty::empty_journals;
pub use end::End;
pub use ordered::run_ordered;
pub use seeded::run_seeded;
