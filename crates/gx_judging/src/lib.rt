//! The judging of a trace that was read: which definitions the run that it shows meets, decided both ways.
#![tactic(auto)]

mod answered;
pub mod answers;
pub mod causes;
pub mod checking;
mod filling;
pub mod laws;
pub mod locks;
mod messages;
pub mod parts;
mod standing;
mod tables;
pub mod verdicts;
mod victims;

pub use checking::check;
pub use filling::fill;
pub use laws::{histories_have_three_parts, legal_traces_show_histories};
pub use parts::{Part, are_legal_in};
pub use verdicts::{Definition, Verdict};
