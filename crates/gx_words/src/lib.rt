//! The words of the command line, and the bytes of the script that they ask for.
#![tactic(auto)]

mod bytes;
mod command;
mod known;
mod number;
mod options;
mod words;

pub use bytes::{NoBytes, script_bytes};
pub use command::WordsFault;
pub use options::Options;
pub use words::{ask_for_threads, read_words};
