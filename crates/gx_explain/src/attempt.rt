// The work before the writing: bytes, script or refusal, and its text.
ghost use Rattle.std.specs.Prelude.{◌≡◌};
ghost use Rattle.std.specs.Str.{IsUtf8};
ghost use Rattle.gx_sql.specs.Held.{IsHeld, progress_of};
ghost use Rattle.gx_sql.specs.Progress.{start};
ghost use Rattle.gx_explain.specs.Top.{IsAttempt, IsOfBytes, refused_as, work};

use crate::reading::{Ending, read_lines};
use crate::telling::{line_text, utf8_text};
use gx_ids::{Mem, OutOfMemory};
use gx_lex::Token;
use gx_outside::{ReadFault, Source, read_up_to};
use gx_sql::progress::Progress;
use std::alloc::Global;
use std::mem;

// The most bytes of a script.
const LIMIT: usize = 16_777_216;

/// How the work before the writing ended: the bytes are a script, or they aren't, with the text that tells why.
#[derive(Drop)]
pub enum Attempt {
    IsScript,
    Refused(Vec<u8>),
    ReadFault,
    TooLarge,
    OutOfMemory,
}

/// Reads the source and finds out what its bytes are, and writes nothing.
pub fn make_attempt<S: Source>(alloc: Global, source: &mut S) -> Attempt
    ensures { IsAttempt (work (S.left source.old) (S.left source.new) (S.fault_count source.old) (S.fault_count source.new)) result }
{
    let bytes = match read_up_to(alloc, source, LIMIT + 1) {
        Ok(bytes) => bytes,
        Err(ReadFault::Failed) => return Attempt::ReadFault,
        Err(ReadFault::OutOfMemory) => return Attempt::OutOfMemory,
    };
    if bytes.len() > LIMIT {
        drop(bytes);
        return Attempt::TooLarge;
    }
    let attempt = explained(alloc, bytes.as_slice());
    drop(bytes);
    attempt
}

// What these bytes are.
fn explained(alloc: Global, bytes: &[u8]) -> Attempt
    ensures { IsOfBytes bytes.now result }
{
    match std::str::from_utf8(bytes) {
        Ok(_) => of_lines(alloc, bytes),
        Err(error) => refused(utf8_text(alloc, error.valid_up_to() as u64)),
    }
}

// What bytes are that are UTF-8.
fn of_lines(alloc: Global, bytes: &[u8]) -> Attempt
    requires { IsUtf8 bytes.now }
    ensures { IsOfBytes bytes.now result }
{
    let mut progress = Progress::new(alloc);
    let mut tokens = Vec::new(alloc);
    let attempt = of_ending(alloc, &mut progress, &mut tokens, bytes);
    // The process ends soon, and the memory of what was read with it.
    mem::forget(tokens);
    progress.forget();
    attempt
}

// The same, with what lines say and a list for tokens.
fn of_ending<'t>(
    alloc: Global,
    progress: &mut Progress,
    tokens: &mut Vec<Token<'t>>,
    bytes: &'t [u8],
) -> Attempt
    requires utf8 { IsUtf8 bytes.now }
    requires said { progress_of progress.old ≡ start }
    requires held { IsHeld progress.old }
    ensures { IsOfBytes bytes.now result }
{
    match read_lines(alloc, progress, tokens, bytes) {
        Ok((Ending::Whole, _rest)) => Attempt::IsScript,
        Ok((Ending::Refused(number, fault), rest)) => refused(line_text(
            alloc, progress, number, fault, rest, tokens,
        )),
        Err(OutOfMemory) => Attempt::OutOfMemory,
    }
}

fn refused(text: Mem<Vec<u8>>) -> Attempt
    ensures { result ≡ refused_as text }
{
    match text {
        Ok(text) => Attempt::Refused(text),
        Err(OutOfMemory) => Attempt::OutOfMemory,
    }
}
