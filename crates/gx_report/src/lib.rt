//! The text of a run: each session's answers, and then the final tables, or why it stopped; that of its trace; and the line
//! that tells of a run of generated work.
#![tactic(auto)]

mod error;
mod events;
mod generated;
mod locks;
mod marks;
mod places;
mod report;
mod rows;
mod sessions;
mod stops;
mod tables;
mod trace;
mod words;
mod worked;

pub use generated::summary;
pub use stops::{push_stuck, push_turns_spent};
pub use tables::{answers, text};
pub use trace::{push_trace, trace_text};
pub use worked::{all_kinds_are_traced, begin_and_rollback_are_traced, stuck_edges_are_told};
