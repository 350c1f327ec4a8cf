// What is told of bytes that are no script.
ghost use Rattle.std.specs.Prelude.{◌≡◌, ◌++◌, ℕ, List, IfOk, OnOk};
ghost use Rattle.gx_lex.specs.Lexing.{Lexes};
ghost use Rattle.gx_sql.specs.Held.{IsHeld, progress_of};
ghost use Rattle.gx_sql.specs.Lines.{lines_of};
ghost use Rattle.gx_explain.specs.Reading.{AreFirst};
ghost use Rattle.gx_explain.specs.Reasons.{reason_at, reason_utf8};
ghost use Rattle.gx_explain.specs.Top as of;

use crate::offers::{front_of, words_on};
use crate::places::find_place;
use crate::reasons::push_reason;
use crate::tails::tail_behind;
use crate::windows::push_window;
use gx_ids::{Mem, OutOfMemory};
use gx_lex::Token;
use gx_sql::first_line;
use gx_sql::progress::Progress;
use gx_sql::refusal::LineFault;
use gx_text::{push_bytes, push_count};
use std::alloc::Global;

// What is told where a script ends before its first head.
const MISSING: &[u8] = b"  hint: the first line tells how many segments there are: segments 2\n";

// Adds a line with a caret under the place of its fault, and words behind it.
fn push_line(
    alloc: Global,
    text: &mut Vec<u8>,
    progress: &Progress,
    fault: LineFault,
    line: &[u8],
    tokens: &mut Vec<Token>,
) -> Mem<()>
    requires held { IsHeld progress.now }
    requires cut { Lexes tokens.old.items line.now }
    ensures { OnOk result ((shown : List ℕ) × (words : List ℕ) × of.IsShown (progress_of progress.now) fault line.now shown × (text.new.items ≡ text.old.items ++ (shown ++ words))) }
{
    let Some(place) = find_place(alloc, progress, fault, tokens.as_slice())? else {
        return Err(OutOfMemory);
    };
    let Some(tail) = tail_behind(place, line) else {
        return Err(OutOfMemory);
    };
    push_window(text, line, tail)?;
    let words = words_on(alloc, front_of(progress), fault, tokens, place, tail)?;
    let pushed = push_bytes(text, words.as_slice());
    drop(words);
    pushed
}

// Adds the line that stands first, where there is one, with words behind it.
fn push_first(
    alloc: Global,
    text: &mut Vec<u8>,
    progress: &Progress,
    fault: LineFault,
    rest: &[u8],
    tokens: &mut Vec<Token>,
) -> Mem<()>
    requires held { IsHeld progress.now }
    requires cut { AreFirst tokens.old.items (lines_of rest.now) }
    ensures { OnOk result ((shown : List ℕ) × (words : List ℕ) × of.AreShown (progress_of progress.now) fault (lines_of rest.now) shown × (text.new.items ≡ text.old.items ++ (shown ++ words))) }
{
    match first_line(rest) {
        Some((line, _others)) => push_line(alloc, text, progress, fault, line, tokens),
        None => push_bytes(text, MISSING),
    }
}

/// What is told of the line that stands first, of this number, with this fault and with these tokens.
pub fn line_text(
    alloc: Global,
    progress: &Progress,
    number: u32,
    fault: LineFault,
    rest: &[u8],
    tokens: &mut Vec<Token>,
) -> Mem<Vec<u8>>
    requires held { IsHeld progress.now }
    requires cut { AreFirst tokens.old.items (lines_of rest.now) }
    ensures { IfOk result (λ text. (shown : List ℕ) × (words : List ℕ) × of.AreShown (progress_of progress.now) fault (lines_of rest.now) shown × (text.items ≡ reason_at number fault ++ (shown ++ words))) }
{
    let mut text = Vec::new(alloc);
    push_reason(&mut text, number, fault)?;
    push_first(alloc, &mut text, progress, fault, rest, tokens)?;
    Ok(text)
}

/// What is told of bytes that aren't UTF-8 from this place on.
pub fn utf8_text(alloc: Global, place: u64) -> Mem<Vec<u8>>
    ensures { IfOk result (λ text. text.items ≡ reason_utf8 place) }
{
    let mut text = Vec::new(alloc);
    push_bytes(&mut text, b"refused 8 not utf-8 byte ")?;
    push_count(&mut text, u128::from(place))?;
    push_bytes(&mut text, b"\n")?;
    Ok(text)
}
