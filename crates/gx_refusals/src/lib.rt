//! The line that tells why bytes are no script.
#![tactic(auto)]

mod refusal;

pub use refusal::refusal_text;
