//! Reads scripts: bytes to a script of the language, or the refusal of its first faulty line.
#![tactic(auto)]

mod count;
pub mod groups;
pub mod progress;
pub mod refusal;
pub mod script;
pub mod split;
mod told;

pub use refusal::{Limit, Refusal};
pub use script::parse_script;
pub use split::{behind_blanks, first_line, is_skipped};
pub use told::limits;
