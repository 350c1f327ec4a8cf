//! Bytes, numbers and texts in single quotes, put at the end of a text.
#![tactic(auto)]

mod numbers;
mod quoted;

pub use numbers::{push_byte, push_bytes, push_count, push_integer};
pub use quoted::push_quoted;
