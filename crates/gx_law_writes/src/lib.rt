//! Of every run: what segments write (the rows of INSERTs, each once, at its place, and what UPDATE and DELETE make of rows), and which locks it has.
#![tactic(auto)]

pub mod asking;
pub mod holding;
pub mod laws;
pub mod writers;
