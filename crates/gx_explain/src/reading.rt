// Reads the lines of a script up to the first that is refused.
ghost use Rattle.std.specs.Prelude.{◌≡◌, ◌<◌, ◌≤◌, ◌+◌, ◌-◌, ◌^◌, IfOk, OnOk, vec_len};
ghost use Rattle.gx_sql.specs.Held.{IsHeld, progress_of};
ghost use Rattle.gx_sql.specs.Lines.{lines_of};
ghost use Rattle.gx_explain.specs.Reading as of;

use gx_ids::{Mem, OutOfMemory};
use gx_lex::{Token, cut_line};
use gx_sql::progress::Progress;
use gx_sql::refusal::{LineError, LineFault};
use gx_sql::{Limit, first_line, is_skipped};
use std::alloc::Global;

const LINES: u32 = 100_000;

/// What lines are: a script, or the one of this number is the first that has a fault.
#[derive(Clone, Copy)]
pub enum Ending {
    Whole,
    Refused(u32, LineFault),
}

// Adds what a line says, or tells its fault. Then the list has its tokens.
fn read_line<'t>(
    alloc: Global,
    progress: &mut Progress,
    tokens: &mut Vec<Token<'t>>,
    line: &'t [u8],
) -> Mem<Option<LineFault>>
    requires held { IsHeld progress.old }
    requires short { vec_len progress.old.lines < 2 ^ 32 - 1 }
    ensures said { IfOk result (of.IsSaid line.now (progress_of progress.old) (progress_of progress.new) tokens.new.items) }
    ensures held { OnOk result (IsHeld progress.new) }
    ensures lines { OnOk result (vec_len progress.new.lines ≤ vec_len progress.old.lines + 1) }
{
    if is_skipped(line) {
        return Ok(None);
    }
    match progress.read_line(alloc, tokens, line) {
        Ok(()) => Ok(None),
        Err(LineError::Fault(fault)) => Ok(Some(fault)),
        Err(LineError::OutOfMemory) => Err(OutOfMemory),
    }
}

// What all lines are, where a further one would have this number.
fn ended(progress: &Progress, number: u32) -> Ending
    ensures { result ≡ of.ended number progress.now.segments }
{
    match progress.segments {
        None => Ending::Refused(number, LineFault::Syntax),
        Some(_) => Ending::Whole,
    }
}

// What lines are of which there are as many as there may be before these bytes.
fn behind_all<'t>(
    alloc: Global,
    progress: &Progress,
    tokens: &mut Vec<Token<'t>>,
    bytes: &'t [u8],
) -> Mem<Ending>
    ensures { IfOk result (of.IsBehindAll (progress_of progress.now) (lines_of bytes.now) tokens.new.items) }
{
    match first_line(bytes) {
        None => Ok(ended(progress, LINES + 1)),
        Some((line, _others)) => {
            cut_line(alloc, line, tokens)?;
            Ok(Ending::Refused(LINES + 1, LineFault::TooMany(Limit::Lines)))
        }
    }
}

/// Says what the lines of bytes are, and gives the bytes from the refused line on, whose tokens the list then has.
pub fn read_lines<'t>(
    alloc: Global,
    progress: &mut Progress,
    tokens: &mut Vec<Token<'t>>,
    bytes: &'t [u8],
) -> Mem<(Ending, &'t [u8])>
    requires held { IsHeld progress.old }
    requires none { vec_len progress.old.lines ≤ 0 }
    ensures ends { IfOk result (λ r. of.IsEnding (progress_of progress.old) (lines_of bytes.now) (progress_of progress.new) (lines_of r.1.now) tokens.new.items r.0) }
    ensures held { OnOk result (IsHeld progress.new) }
{
    let mut rest = bytes;
    for number in 1..LINES + 1 {
        match first_line(rest) {
            None => return Ok((ended(progress, number), rest)),
            Some((line, others)) => match read_line(alloc, progress, tokens, line)? {
                None => rest = others,
                Some(fault) => return Ok((Ending::Refused(number, fault), rest)),
            },
        }
    }
    let ending = behind_all(alloc, progress, tokens, rest)?;
    Ok((ending, rest))
}
