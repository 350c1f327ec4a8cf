//! `gx_judge` reads a script from the standard input, runs it as `gx` does, and says whether its run is a legal history. That every run is
//! one is proved; here the definition itself is asked, of the runs that the tests make. With `--refuse NODE.CALL` before `gx`'s words, that append to
//! the node's journal fails, and the run is told before the verdict. With `--apart` before them the nodes work apart, and the run that
//! their histories make is told and judged; so it is with `--threads` among them, where the nodes work in threads.
#![tactic(auto)]

mod apart;
mod apart_telling;
mod asked;
mod driving;
mod journals;
mod judging;
mod telling;
mod verdict;

use apart::judge_apart;
use gx_outside::{Failed, StdinSource, StdoutSink};
use gx_words::ask_for_threads;
use judging::judge;
use std::process::ExitCode;
use std::{env, io};
use verdict::{status_of, write_verdict};

fn main(rt: HostRuntime) -> ExitCode {
    let alloc = rt.alloc();
    let Ok(words) = env::args(&rt) else {
        return ExitCode::from(2);
    };
    let Ok(words) = words.skip(1).collect::<Vec<String>>(alloc) else {
        return ExitCode::from(6);
    };
    let mut source = StdinSource::new(rt.reader());
    let verdict = match words.as_slice() {
        [first, others @ ..] if first.as_str() == "--apart" => {
            judge_apart(&rt, alloc, others, &mut source)
        }
        all if ask_for_threads(all) => judge_apart(&rt, alloc, all, &mut source),
        all => judge(alloc, all, &mut source),
    };
    let mut sink = StdoutSink::new(io::writer(&rt));
    match write_verdict(&mut sink, &verdict) {
        Ok(()) => ExitCode::from(status_of(&verdict)),
        Err(Failed) => ExitCode::from(5),
    }
}
