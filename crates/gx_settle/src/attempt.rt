// The work before the writing: reading, running and the text.
ghost use Rattle.std.specs.Prelude.{◌≡◌, ◌*◌, ◌++◌, IfOk, All, codes};
ghost use Rattle.std.specs.Fmt.{decimal};
ghost use Rattle.gx_decide.specs.Disk.{ReachesTo};
ghost use Rattle.gx_decide.specs.Log.{slots_of};
ghost use Rattle.gx_settle.specs.Commands.{IsDrawn};
ghost use Rattle.gx_settle.specs.Top.{IsAttempt, IsRan, IsRefusedFor, IsStoppedText, work};

use crate::command::Command;
use crate::reading::{ReadRefusal, read_commands};
use crate::running::run_commands;
use gx_decide::{DecideFault, Disk};
use gx_ids::Mem;
use gx_outside::{ReadFault, Source, read_up_to};
use gx_text::{push_bytes, push_count};
use std::alloc::Global;

// The most bytes of an input.
const LIMIT: usize = 16_777_216;

/// How the work before the writing ended: all commands were answered, or the first that wasn't met this fault; or the input isn't
/// one; each with the text that tells it.
#[derive(Drop)]
pub enum Attempt {
    Done(Vec<u8>),
    DiskFailed(Vec<u8>),
    Full(Vec<u8>),
    NotLog(Vec<u8>),
    Refused(Vec<u8>),
    ReadFault,
    TooLarge,
    OutOfMemory,
}

/// Reads and runs, and writes nothing but to the disk.
pub fn make_attempt<S: Source, D: Disk>(alloc: Global, source: &mut S, disk: &mut D) -> Attempt
    ensures came { IsAttempt (work (S.left source.old) (S.left source.new) (S.fault_count source.old) (S.fault_count source.new)
        (D.state disk.old) (D.state disk.new) (D.fault_count disk.old) (D.fault_count disk.new)) result }
    ensures reach { ReachesTo (16 * slots_of (D.state disk.old).size) (D.reach disk.old) (D.reach disk.new) }
{
    let bytes = match read_up_to(alloc, source, LIMIT + 1) {
        Ok(bytes) => bytes,
        Err(ReadFault::Failed) => return Attempt::ReadFault,
        Err(ReadFault::OutOfMemory) => return Attempt::OutOfMemory,
    };
    if bytes.len() > LIMIT {
        return Attempt::TooLarge;
    }
    let commands = match read_commands(alloc, bytes.as_slice()) {
        Ok(commands) => commands,
        Err(ReadRefusal::Line(number)) => return refused(alloc, number),
        Err(ReadRefusal::OutOfMemory) => return Attempt::OutOfMemory,
    };
    ran(alloc, disk, commands.as_slice())
}

// Runs commands, and tells what became of them.
fn ran<D: Disk>(alloc: Global, disk: &mut D, commands: &[Command]) -> Attempt
    requires drawn { All IsDrawn commands.now }
    ensures came { IsRan commands.now (D.state disk.old) (D.state disk.new) (D.fault_count disk.old) (D.fault_count disk.new) result }
    ensures reach { ReachesTo (16 * slots_of (D.state disk.old).size) (D.reach disk.old) (D.reach disk.new) }
{
    let mut text = Vec::new(alloc);
    match run_commands(alloc, disk, commands, &mut text) {
        Ok(()) => Attempt::Done(text),
        Err(fault) => stopped(text, fault),
    }
}

// Why the run stopped, behind the answers.
fn stopped(text: Vec<u8>, fault: DecideFault) -> Attempt
    ensures { IsStoppedText text.items fault result }
{
    match fault {
        DecideFault::Disk => match with_line(text, b"disk fault\n") {
            Ok(text) => Attempt::DiskFailed(text),
            Err(_) => Attempt::OutOfMemory,
        },
        DecideFault::Full(_) => match with_line(text, b"full\n") {
            Ok(text) => Attempt::Full(text),
            Err(_) => Attempt::OutOfMemory,
        },
        DecideFault::NotLog(_) => match with_line(text, b"not a log\n") {
            Ok(text) => Attempt::NotLog(text),
            Err(_) => Attempt::OutOfMemory,
        },
        DecideFault::OutOfMemory => Attempt::OutOfMemory,
    }
}

fn with_line(mut text: Vec<u8>, line: &[u8]) -> Mem<Vec<u8>>
    ensures { IfOk result (λ more. more.items ≡ text.items ++ line.now) }
{
    push_bytes(&mut text, line)?;
    Ok(text)
}

// What an input comes to whose line with this number is no command.
fn refused(alloc: Global, number: u64) -> Attempt
    ensures { IsRefusedFor number result }
{
    match refusal_text(alloc, number) {
        Ok(text) => Attempt::Refused(text),
        Err(_) => Attempt::OutOfMemory,
    }
}

fn refusal_text(alloc: Global, number: u64) -> Mem<Vec<u8>>
    ensures { IfOk result (λ text. text.items ≡ codes "refused line " ++ decimal number ++ codes "\n") }
{
    let mut text = Vec::new(alloc);
    push_bytes(&mut text, b"refused line ")?;
    push_count(&mut text, u128::from(number))?;
    push_bytes(&mut text, b"\n")?;
    Ok(text)
}
