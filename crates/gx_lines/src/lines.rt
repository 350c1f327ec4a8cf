// Reads whole lines.
ghost use Rattle.std.specs.Prelude.{◌≡◌, ◌≤◌, List};
ghost use Rattle.gx_grammar.specs.Code.{Says, Judged, Leaves, Placed};
ghost use Rattle.gx_grammar.specs.Rules.{whole_at};
ghost use Rattle.gx_lines.specs.Heads as of;
ghost use Rattle.gx_lines.specs.declared.classes.Segments.{Segments};
ghost use Rattle.gx_lines.specs.declared.syn.LineSyn.{LineSyn};

use crate::classes::Segments;
use crate::heads::{head, segments, session};
use crate::syn::LineSyn;
use gx_grammar::{Fault, Limits, ReadError};
use gx_lex::Token;
use std::alloc::Global;

fn whole_segments(alloc: Global, limits: Limits, tokens: &[Token]) -> Result<Segments, ReadError>
    ensures says { Says result (whole_at (of.segments_at limits) tokens.now) }
    ensures left { Leaves result (of.segments_at limits tokens.now) }
{
    let (segments, rest) = segments(alloc, limits, tokens)?;
    if rest.is_empty() {
        Ok(segments)
    } else {
        Err(ReadError::Fault(Fault::Syntax, rest.len()))
    }
}

fn whole_head<'t>(
    alloc: Global,
    segments: u64,
    limits: Limits,
    tokens: &[Token<'t>],
) -> Result<LineSyn<'t>, ReadError>
    ensures says { Says result (whole_at (of.head_at segments limits) tokens.now) }
    ensures left { Leaves result (of.head_at segments limits tokens.now) }
{
    let (line, rest) = head(alloc, segments, limits, tokens)?;
    if rest.is_empty() {
        Ok(line)
    } else {
        drop(line);
        Err(ReadError::Fault(Fault::Syntax, rest.len()))
    }
}

fn whole_session<'t>(
    alloc: Global,
    limits: Limits,
    tokens: &[Token<'t>],
) -> Result<LineSyn<'t>, ReadError>
    ensures says { Says result (whole_at (of.session_at limits) tokens.now) }
    ensures left { Leaves result (of.session_at limits tokens.now) }
{
    let (line, rest) = session(alloc, limits, tokens)?;
    if rest.is_empty() {
        Ok(line)
    } else {
        drop(line);
        Err(ReadError::Fault(Fault::Syntax, rest.len()))
    }
}

/// Reads the tokens of the line that says how many segments there are.
pub fn read_segments_line(
    alloc: Global,
    limits: Limits,
    tokens: &[Token],
) -> Result<Segments, ReadError>
    // What is read is written so; a fault is the first token that can't continue a reading, or not within the limits.
    ensures verdict { Judged of.segments limits tokens.now result }
    // It is told with its place.
    ensures place { Placed of.segments limits tokens.now result }
    // What is written so is read, unless memory runs out.
    ensures only { (n : Segments) → of.segments limits n tokens.now → Says result (Ok n) }
{
    whole_segments(alloc, limits, tokens)
}

/// Reads the tokens of a line behind that of the segments, of which there are so many, where no session's line came
/// before.
pub fn read_head_line<'t>(
    alloc: Global,
    segments: u64,
    limits: Limits,
    tokens: &[Token<'t>],
) -> Result<LineSyn<'t>, ReadError>
    requires { 1 ≤ segments }
    // What is read is written so; a fault is the first token that can't continue a reading, or not within the limits.
    ensures verdict { Judged (of.head_line segments) limits tokens.now result }
    // It is told with its place.
    ensures place { Placed (of.head_line segments) limits tokens.now result }
    // What is written so is read, unless memory runs out.
    ensures only { (line : LineSyn) → of.head_line segments limits line tokens.now → Says result (Ok line) }
{
    whole_head(alloc, segments, limits, tokens)
}

/// Reads the tokens of a line where a session's line came before.
pub fn read_session_line<'t>(
    alloc: Global,
    limits: Limits,
    tokens: &[Token<'t>],
) -> Result<LineSyn<'t>, ReadError>
    // What is read is written so; a fault is the first token that can't continue a reading, or not within the limits.
    ensures verdict { Judged of.session_line limits tokens.now result }
    // It is told with its place.
    ensures place { Placed of.session_line limits tokens.now result }
    // What is written so is read, unless memory runs out.
    ensures only { (line : LineSyn) → of.session_line limits line tokens.now → Says result (Ok line) }
{
    whole_session(alloc, limits, tokens)
}
