//! `gx` reads a script of SQL sessions from the standard input, runs it, and prints each statement's answer and the final
//! tables.
#![tactic(auto)]

mod alone;
mod attempt;
mod driving;
mod in_threads;
mod reading;
mod running;
mod telling;
mod top;

use gx_drive::empty_journals;
use gx_outside::{PassGate, StdinSource, StdoutSink};
use std::process::ExitCode;
use std::{env, io, mem};
use top::run_gx;

fn main(rt: HostRuntime) -> ExitCode {
    let alloc = rt.alloc();
    let Ok(words) = env::args(&rt) else {
        return ExitCode::from(2);
    };
    let Ok(words) = words.skip(1).collect::<Vec<String>>(alloc) else {
        return ExitCode::from(6);
    };
    let Ok(mut journals) = empty_journals(alloc) else {
        return ExitCode::from(6);
    };
    let mut source = StdinSource::new(rt.reader());
    let mut sink = StdoutSink::new(io::writer(&rt));
    let report = run_gx(
        &rt,
        alloc,
        words.as_slice(),
        &mut source,
        &mut sink,
        &mut journals,
        &PassGate,
    );
    let status = report.status;
    // The process ends here, and its memory with it.
    mem::forget(report);
    mem::forget(journals);
    ExitCode::from(status)
}
