// The top call.
ghost use Rattle.std.specs.Prelude.{◌≡◌, ◌*◌};
ghost use Rattle.gx_decide.specs.Disk.{ReachesTo};
ghost use Rattle.gx_decide.specs.Kept.{IsStrange};
ghost use Rattle.gx_decide.specs.Log.{slots_of};
ghost use Rattle.gx_settle.specs.Top.{IsCutShort, IsDiskFault, IsDone, IsDue, IsFullLog, IsLeft, IsNotLog, IsReadFault, IsRefused, IsStatus, IsTold, IsToldOf, IsTooLarge, IsWritten, work};

use crate::attempt::{Attempt, make_attempt};
use gx_decide::Disk;
use gx_outside::{Failed, Sink, Source, write_whole};
use std::alloc::Global;

// Writes the text of an ending with this status.
fn told<K: Sink>(status: u8, text: &[u8], sink: &mut K) -> u8
    ensures { IsTold status text.now (K.written sink.old) (K.written sink.new) (K.fault_count sink.old) (K.fault_count sink.new) result }
{
    match write_whole(sink, text) {
        Ok(()) => status,
        Err(Failed) => 5,
    }
}

// Tells what the work came to.
fn told_of<K: Sink>(attempt: Attempt, sink: &mut K) -> u8
    ensures { IsToldOf attempt (K.written sink.old) (K.written sink.new) (K.fault_count sink.old) (K.fault_count sink.new) result }
{
    match attempt {
        Attempt::Done(text) => told(0, text.as_slice(), sink),
        Attempt::DiskFailed(text) => told(13, text.as_slice(), sink),
        Attempt::Full(text) => told(14, text.as_slice(), sink),
        Attempt::NotLog(text) => told(15, text.as_slice(), sink),
        Attempt::Refused(text) => told(3, text.as_slice(), sink),
        Attempt::ReadFault => told(4, b"read fault\n", sink),
        Attempt::TooLarge => told(9, b"too large\n", sink),
        Attempt::OutOfMemory => 6,
    }
}

/// Reads commands from the source, runs them on the disk's log, and writes their answers to the sink once the run has ended. The
/// status is 0 where all were answered, 3 at a line that is no command, 4 at a read fault, 5 at a write fault, 6 for want of
/// memory, 9 for too many bytes, 13 at a fault of the disk, 14 where the log is full, and 15 where the disk is no log.
pub fn run_settle<S: Source, K: Sink, D: Disk>(
    alloc: Global,
    source: &mut S,
    sink: &mut K,
    disk: &mut D,
) -> u8
    ensures known { IsStatus result }

    // Bytes behind the disk's last slot are neither read nor written.
    ensures reach { ReachesTo (16 * slots_of (D.state disk.old).size) (D.reach disk.old) (D.reach disk.new) }

    // The source was read to its end, each of its lines was answered by the verdict that the disk's log keeps from then on, and the answers were
    // written. Whatever opens, settles and stops came before, the answered pairs stand in every later image, and all answers for one transaction are equal.
    ensures done { result ≡ 0 → IsWritten (IsDone (S.left source.old) (S.left source.new) (D.state disk.old) (D.state disk.new)) (K.written sink.old) (K.written sink.new) }

    // A line is no command; the text has the number of the first, and nothing was run.
    ensures refused { result ≡ 3 → IsWritten (IsRefused (S.left source.old) (S.left source.new) (D.state disk.old) (D.state disk.new)) (K.written sink.old) (K.written sink.new) }

    ensures read_fault { result ≡ 4 → IsWritten (IsReadFault (S.fault_count source.old) (S.fault_count source.new) (D.state disk.old) (D.state disk.new)) (K.written sink.old) (K.written sink.new) }

    // The sink failed, and a part of a text that was due stands there.
    ensures write_fault { result ≡ 5 → IsCutShort (IsDue (work (S.left source.old) (S.left source.new) (S.fault_count source.old) (S.fault_count source.new)
        (D.state disk.old) (D.state disk.new) (D.fault_count disk.old) (D.fault_count disk.new))) (K.written sink.old) (K.written sink.new) (K.fault_count sink.old) (K.fault_count sink.new) }

    // Nothing was written, and a part of the commands was run, or none.
    ensures memory { result ≡ 6 → (K.written sink.new ≡ K.written sink.old) × IsLeft (S.left source.old) (S.left source.new) (D.state disk.old) (D.state disk.new) }

    ensures too_large { result ≡ 9 → IsWritten (IsTooLarge (S.left source.old) (S.left source.new) (D.state disk.old) (D.state disk.new)) (K.written sink.old) (K.written sink.new) }

    // A call on the disk failed in this call; the text has the answers so far.
    ensures disk_fault { result ≡ 13 → IsWritten (IsDiskFault (S.left source.old) (S.left source.new) (D.state disk.old) (D.state disk.new)
        (D.fault_count disk.old) (D.fault_count disk.new)) (K.written sink.old) (K.written sink.new) }

    // A settle found no verdict and no slot; the text has the answers so far.
    ensures full { result ≡ 14 → IsWritten (IsFullLog (S.left source.old) (S.left source.new) (D.state disk.old) (D.state disk.new)
        (D.fault_count disk.old) (D.fault_count disk.new)) (K.written sink.old) (K.written sink.new) }

    // An open found a bad slot, and no opens, settles and stops made such a disk.
    ensures not_log { result ≡ 15 → IsWritten (IsNotLog (S.left source.old) (S.left source.new) (D.state disk.old) (D.state disk.new)
        (D.fault_count disk.old) (D.fault_count disk.new)) (K.written sink.old) (K.written sink.new) }
    ensures strange { result ≡ 15 → IsStrange (D.state disk.old) }
{
    let attempt = make_attempt(alloc, source, disk);
    told_of(attempt, sink)
}
