// The top call.
ghost use Rattle.std.specs.Prelude.{◌≡◌};
ghost use Rattle.gx_explain.specs.Top.{IsCutShort, IsDone, IsDue, IsReadFault, IsRefused, IsSaid, IsSaidOf, IsStatus, IsTooLarge, IsWritten, work};

use crate::attempt::{Attempt, make_attempt};
use gx_outside::{Failed, Sink, Source, write_whole};
use std::alloc::Global;

// Writes the text of an ending with this status.
fn told<K: Sink>(status: u8, text: &[u8], sink: &mut K) -> u8
    ensures { IsSaid status text.now (K.written sink.old) (K.written sink.new) (K.fault_count sink.old) (K.fault_count sink.new) result }
{
    match write_whole(sink, text) {
        Ok(()) => status,
        Err(Failed) => 5,
    }
}

// Tells what the work came to.
fn told_of<K: Sink>(attempt: Attempt, sink: &mut K) -> u8
    ensures { IsSaidOf attempt (K.written sink.old) (K.written sink.new) (K.fault_count sink.old) (K.fault_count sink.new) result }
{
    match attempt {
        Attempt::IsScript => told(0, b"a script\n", sink),
        Attempt::Refused(text) => {
            let status = told(3, text.as_slice(), sink);
            drop(text);
            status
        }
        Attempt::ReadFault => told(4, b"read fault\n", sink),
        Attempt::TooLarge => told(9, b"too large\n", sink),
        Attempt::OutOfMemory => 6,
    }
}

/// Reads the source to its end, and writes to the sink that its bytes are a script, or why they are refused: the line that `gx`
/// prints of them, then that line of theirs with a caret under the place of its fault, what could stand there, and a hint. The
/// status is 0 for a script, 3 where it is refused, 4 at a read fault, 5 at a write fault, 6 for want of memory, and 9 for too
/// many bytes.
pub fn run_explain<S: Source, K: Sink>(alloc: Global, source: &mut S, sink: &mut K) -> u8
    ensures known { IsStatus result }

    // The source was read to its end and its bytes are a script, as `gx` reads them.
    ensures done { result ≡ 0 → IsWritten (IsDone (S.left source.old) (S.left source.new)) (K.written sink.old) (K.written sink.new) }

    // The bytes are no script, for the reason and at the line that `gx` tells; and the caret is at the place of the fault.
    ensures refused { result ≡ 3 → IsWritten (IsRefused (S.left source.old) (S.left source.new)) (K.written sink.old) (K.written sink.new) }

    ensures read_fault { result ≡ 4 → IsWritten (IsReadFault (S.fault_count source.old) (S.fault_count source.new)) (K.written sink.old) (K.written sink.new) }

    // The sink failed, and a part of a text that was due stands there.
    ensures write_fault { result ≡ 5 → IsCutShort (IsDue (work (S.left source.old) (S.left source.new) (S.fault_count source.old) (S.fault_count source.new)))
        (K.written sink.old) (K.written sink.new) (K.fault_count sink.old) (K.fault_count sink.new) }

    // Nothing was written, and neither source nor sink has counted a fault.
    ensures unfailed { result ≡ 6 → (S.fault_count source.new ≡ S.fault_count source.old) × (K.fault_count sink.new ≡ K.fault_count sink.old) }
    ensures memory { result ≡ 6 → K.written sink.new ≡ K.written sink.old }

    ensures too_large { result ≡ 9 → IsWritten (IsTooLarge (S.left source.old) (S.left source.new)) (K.written sink.old) (K.written sink.new) }
{
    let attempt = make_attempt(alloc, source);
    told_of(attempt, sink)
}
