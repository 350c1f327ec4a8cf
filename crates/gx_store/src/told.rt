// The one write, and the status.
ghost use Rattle.gx_store.specs.Told.{IsTold, IsToldOf, no_run};

use crate::attempt::Attempt;
use crate::run::Run;
use gx_outside::{Failed, Sink, write_whole};
use std::alloc::Global;

/// What a call did: its status, and the run that it made. 0 is done, 2 words that aren't in the language, 3 a refused script, 4 a read fault, 5 a write fault, 6
/// want of memory, 7 a run that took all its turns, 8 a run that is stuck, and 9 too many bytes.
#[derive(Drop)]
pub struct Report {
    pub status: u8,
    pub run: Run,
}

// Writes the text of an ending with this status.
fn told<K: Sink>(status: u8, run: Run, text: &[u8], sink: &mut K) -> Report
    ensures { IsTold status run text.now (K.written sink.old) (K.written sink.new) (K.fault_count sink.old) (K.fault_count sink.new) result }
{
    match write_whole(sink, text) {
        Ok(()) => Report { status, run },
        Err(Failed) => Report { status: 5, run },
    }
}

fn told_text<K: Sink>(status: u8, run: Run, text: Vec<u8>, sink: &mut K) -> Report
    ensures { IsTold status run text.items (K.written sink.old) (K.written sink.new) (K.fault_count sink.old) (K.fault_count sink.new) result }
{
    let report = told(status, run, text.as_slice(), sink);
    drop(text);
    report
}

// Nothing was run.
fn told_alone<K: Sink>(alloc: Global, status: u8, text: &[u8], sink: &mut K) -> Report
    ensures { IsTold status no_run text.now (K.written sink.old) (K.written sink.new) (K.fault_count sink.old) (K.fault_count sink.new) result }
{
    told(status, Run::new(alloc), text, sink)
}

// The run is over, as it should be.
fn told_done<K: Sink>(run: Run, text: Vec<u8>, sink: &mut K) -> Report
    ensures { IsTold 0 run text.items (K.written sink.old) (K.written sink.new) (K.fault_count sink.old) (K.fault_count sink.new) result }
{
    told_text(0, run, text, sink)
}

/// Tells what the work came to, in one write.
pub fn told_of<K: Sink>(alloc: Global, attempt: Attempt, sink: &mut K) -> Report
    ensures { IsToldOf attempt (K.written sink.old) (K.written sink.new) (K.fault_count sink.old) (K.fault_count sink.new) result }
{
    match attempt {
        Attempt::Done(run, text) => told_done(run, text, sink),
        Attempt::Stopped(run, text) => told_text(7, run, text, sink),
        Attempt::Stuck(run, text) => told_text(8, run, text, sink),
        Attempt::Usage => told_alone(
            alloc,
            2,
            b"usage: gx [--seed N] [--threads] [--trace] [--turns N] [--gen N]\n",
            sink,
        ),
        Attempt::Refused(text) => told_text(3, Run::new(alloc), text, sink),
        Attempt::ReadFault => told_alone(alloc, 4, b"read fault\n", sink),
        Attempt::TooLarge => told_alone(alloc, 9, b"too large\n", sink),
        Attempt::OutOfMemory(run) => Report { status: 6, run },
    }
}
