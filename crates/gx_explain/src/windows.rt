// What is shown of a line.
ghost use Rattle.std.specs.Prelude.{◌≡◌, ◌≤◌, ◌-◌, ◌++◌, length, nat_le, take, OnOk};
ghost use Rattle.gx_explain.specs.Windows as of;

use gx_ids::Mem;
use gx_text::{push_byte, push_bytes};

// The most characters that are shown of a line.
const WIDTH: usize = 100;

// How many of them stand before a place in their midst.
const HALF: usize = 50;

// The bytes before a place among which so many characters are.
const NEAR: usize = 200;

fn is_inner(byte: u8) -> bool
    ensures { result ≡ of.is_inner byte }
{
    128 <= byte && byte <= 191
}

fn chars(bytes: &[u8]) -> usize
    ensures { result ≡ of.chars bytes.now }
{
    let mut count = 0usize;
    for byte in bytes {
        if !is_inner(*byte) {
            count += 1;
        }
    }
    count
}

// The bytes behind so many characters.
fn behind_chars(count: usize, bytes: &[u8]) -> &[u8]
    ensures { result.now ≡ of.behind_chars count bytes.now }
{
    let mut left = count;
    let mut rest = bytes;
    while let Some((byte, others)) = rest.split_first() {
        if !is_inner(*byte) {
            if left == 0 {
                return rest;
            }
            left -= 1;
        }
        rest = others;
    }
    rest
}

// Adds so many characters from the front of these.
fn push_chars(text: &mut Vec<u8>, count: usize, bytes: &[u8]) -> Mem<()>
    ensures { OnOk result (text.new.items ≡ text.old.items ++ of.first_chars count bytes.now) }
{
    let mut left = count;
    let mut rest = bytes;
    while let Some((byte, others)) = rest.split_first() {
        if !is_inner(*byte) {
            if left == 0 {
                return Ok(());
            }
            left -= 1;
        }
        push_byte(text, *byte)?;
        rest = others;
    }
    Ok(())
}

fn push_blanks(text: &mut Vec<u8>, count: usize) -> Mem<()>
    ensures { OnOk result (text.new.items ≡ text.old.items ++ of.blanks count) }
{
    let mut left = count;
    while 0 < left {
        push_byte(text, b' ')?;
        left -= 1;
    }
    Ok(())
}

// Whether a line has no more characters than are shown.
fn is_short(line: &[u8]) -> bool
    ensures { result ≡ nat_le (of.chars line.now) 100 }
{
    behind_chars(WIDTH, line).is_empty()
}

// The characters that are shown before a byte of a line. What stands just before it is looked at first, and not the line from its front, where that
// will do.
fn shown_before(line: &[u8], at: usize) -> usize
    requires { at ≤ length line.now }
    ensures { result ≡ of.chars (take at line.now) - of.left_out line.now (of.chars (take at line.now)) }
{
    if is_short(line) {
        return chars(&line[..at]);
    }
    if HALF <= chars(&line[at.saturating_sub(NEAR)..at]) {
        return HALF;
    }
    chars(&line[..at]).min(HALF)
}

// The bytes of a line from the first of so many characters before a byte of it.
fn behind_from(line: &[u8], shown: usize, at: usize) -> &[u8]
    requires inside { at ≤ length line.now }
    requires before { shown ≤ of.chars (take at line.now) }
    ensures { result.now ≡ of.behind_chars (of.chars (take at line.now) - shown) line.now }
{
    let near = at.saturating_sub(NEAR);
    let count = chars(&line[near..at]);
    if shown <= count {
        behind_chars(count - shown, &line[near..])
    } else {
        behind_chars(chars(&line[..at]) - shown, line)
    }
}

/// Adds 100 characters of a line at most, and a caret under the one at which a tail of it begins.
pub fn push_window(text: &mut Vec<u8>, line: &[u8], tail: &[u8]) -> Mem<()>
    requires { length tail.now ≤ length line.now }
    ensures { OnOk result (text.new.items ≡ text.old.items ++ of.window line.now (of.chars_before line.now tail.now)) }
{
    let at = line.len() - tail.len();
    let shown = shown_before(line, at);
    push_bytes(text, b"  ")?;
    push_chars(text, WIDTH, behind_from(line, shown, at))?;
    push_bytes(text, b"\n  ")?;
    push_blanks(text, shown)?;
    push_bytes(text, b"^\n")
}
