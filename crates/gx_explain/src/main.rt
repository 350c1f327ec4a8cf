//! `gx_explain` reads a script from the standard input and says that it is one, or why it is refused and where.
#![tactic(auto)]

mod attempt;
mod grouped;
mod hints;
mod kinds;
mod names;
mod offers;
mod parts;
mod places;
mod reading;
mod reasons;
mod rules;
mod spelled;
mod tails;
mod telling;
mod top;
mod windows;
mod words;

use gx_outside::{StdinSource, StdoutSink};
use std::io;
use std::process::ExitCode;
use top::run_explain;

fn main(rt: HostRuntime) -> ExitCode {
    let mut source = StdinSource::new(rt.reader());
    let mut sink = StdoutSink::new(io::writer(&rt));
    ExitCode::from(run_explain(rt.alloc(), &mut source, &mut sink))
}
