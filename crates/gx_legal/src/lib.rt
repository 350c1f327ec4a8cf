//! Whether the run of a script is a legal history: its definition decided, for any run. A tally is carried from mark to mark; the rest is
//! looked up in the run. What rows ask of a mark behind any marks (legal writes, skips, faults and answers) keeps nothing from one question
//! to the next: each walks the marks a few times, mostly from the last on, and for the rows of its own transaction from their first mark on.
#![tactic(auto)]

pub mod acting;
pub mod answers;
mod arithmetic;
pub mod changed;
pub mod command;
pub mod commands;
mod committed;
mod constants;
pub mod copying;
pub mod counts;
pub mod deed;
pub mod doing;
pub mod done;
pub mod ends;
mod evaluation;
pub mod events;
pub mod faulted;
pub mod faults;
pub mod firsts;
pub mod heard;
mod held;
mod images;
mod inserted;
mod inserts;
pub mod journals;
pub mod judgement;
pub mod late;
mod late_writes;
pub mod lines;
pub mod marks;
pub mod moment;
pub mod named;
pub mod noted;
mod orders;
pub mod overtaken;
pub mod overtaken_rows;
pub mod own;
pub mod parts;
pub mod pieces;
mod places;
mod processed;
pub mod refusals;
pub mod seats;
mod selecting;
mod setting;
mod shown;
pub mod skips;
pub mod snaps;
pub mod standing;
pub mod starts;
pub mod steps;
pub mod stretch;
pub mod tally;
pub mod told;
pub mod verdicts;
pub mod viewing;
pub mod word;
pub mod working;
pub mod writes;
mod writing;

pub use command::{Command, RowAt};
pub use faults::is_fault_of;
pub use images::is_same_image;
pub use marks::{has_own_snapshot, is_aborted, is_committed};
pub use moment::Moment;
pub use overtaken_rows::is_overtaken_row;
pub use parts::{
    is_legal_beside, is_legal_mark, is_legal_refusal, is_legal_row, is_legal_statement,
};
pub use skips::is_skip_of;
pub use steps::legal;
pub use told::tells;
pub use viewing::view;
pub use writes::is_write_of;
