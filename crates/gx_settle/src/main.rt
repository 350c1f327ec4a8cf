//! `gx_settle` reads lines that settle or ask for verdicts of transactions from the standard input, and prints the answers.
#![tactic(auto)]

mod attempt;
mod command;
mod reading;
mod running;
#[cfg(test)]
mod tests;
mod top;

use gx_decide::DiskMem;
use gx_outside::{StdinSource, StdoutSink};
use std::io;
use std::process::ExitCode;
use top::run_settle;

// How many slots the log has.
const SLOTS: u32 = 65_536;

fn main(rt: HostRuntime) -> ExitCode {
    let alloc = rt.alloc();
    let Ok(mut disk) = DiskMem::new(alloc, SLOTS, Vec::new(alloc)) else {
        return ExitCode::from(6);
    };
    let mut source = StdinSource::new(rt.reader());
    let mut sink = StdoutSink::new(io::writer(&rt));
    ExitCode::from(run_settle(alloc, &mut source, &mut sink, &mut disk))
}
