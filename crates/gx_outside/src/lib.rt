//! The outside: where bytes come from and go to, what a node keeps for ever, and the gate before each slice of work.
#![tactic(auto)]

pub mod gate;
pub mod journal;
pub mod memory;
pub mod refused;
pub mod sink;
pub mod source;
pub mod streams;
pub mod whole;

pub use gate::{Gate, PassGate, Passed, pass};
pub use journal::{AppendFault, Journal};
pub use memory::{JournalMem, SinkMem, SourceMem};
pub use sink::Sink;
pub use source::{Failed, Source};
pub use streams::{StdinSource, StdoutSink};
pub use whole::{ReadFault, read_up_to, write_whole};
