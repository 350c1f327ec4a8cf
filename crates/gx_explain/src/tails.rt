// Where a token of a line begins.
ghost use Rattle.std.specs.Prelude.{◌≡◌, ◌≤◌, ◌∷◌, [], false, true, length, IfSome, MatchOption};
ghost use Rattle.gx_lex.specs.Lexing as lexing;
ghost use Rattle.gx_sql.specs.Lines as lines;
ghost use Rattle.gx_explain.specs.Tails as of;

use gx_lex::byte::{is_blank, is_digit, is_letter, is_word_byte};
use gx_lex::lone_symbol;
use gx_sql::behind_blanks;

fn behind_word(first: u8, behind: &[u8]) -> &[u8]
    requires { lexing.is_letter first ≡ true }
    ensures value { of.IsBehindFirst (first ∷ behind.now) result.now }
    ensures within { length result.now ≤ length behind.now }
{
    let mut rest = behind;
    while let Some((byte, others)) = rest.split_first() {
        if !is_word_byte(*byte) {
            return rest;
        }
        rest = others;
    }
    rest
}

fn behind_digits(first: u8, behind: &[u8]) -> &[u8]
    requires { lexing.is_digit first ≡ true }
    ensures value { of.IsBehindFirst (first ∷ behind.now) result.now }
    ensures within { length result.now ≤ length behind.now }
{
    let mut rest = behind;
    while let Some((byte, others)) = rest.split_first() {
        if !is_digit(*byte) {
            return rest;
        }
        rest = others;
    }
    rest
}

// The bytes behind a quote, where one stands first.
fn behind_quote(line: &[u8]) -> Option<&[u8]>
    ensures { MatchOption result (lexing.Without lexing.is_quote line.now) (λ r. line.now ≡ 39 ∷ r.now) }
{
    match line.split_first() {
        Some((byte, rest)) if *byte == 39 => Some(rest),
        _ => None,
    }
}

// Behind the first quote of a text.
fn behind_text(behind: &[u8]) -> &[u8]
    ensures value { of.IsBehindFirst (39 ∷ behind.now) result.now }
    ensures within { length result.now ≤ length behind.now }
{
    let mut rest = behind;
    while let Some((byte, others)) = rest.split_first() {
        if *byte != 39 {
            rest = others;
        } else {
            match behind_quote(others) {
                Some(more) => rest = more,
                None => return others,
            }
        }
    }
    rest
}

fn behind_less(behind: &[u8]) -> &[u8]
    ensures value { of.IsBehindFirst (60 ∷ behind.now) result.now }
    ensures within { length result.now ≤ length behind.now }
{
    match behind.split_first() {
        None => behind,
        Some((next, rest)) => {
            if *next == 61 {
                rest
            } else if *next == 62 {
                rest
            } else {
                behind
            }
        }
    }
}

fn behind_greater(behind: &[u8]) -> &[u8]
    ensures value { of.IsBehindFirst (62 ∷ behind.now) result.now }
    ensures within { length result.now ≤ length behind.now }
{
    match behind.split_first() {
        None => behind,
        Some((next, rest)) => { if *next == 61 { rest } else { behind } }
    }
}

// Behind a sign of one byte, or behind what no token begins with.
fn behind_lone(first: u8, behind: &[u8]) -> &[u8]
    requires blank { lexing.is_blank first ≡ false }
    requires letter { lexing.is_letter first ≡ false }
    requires digit { lexing.is_digit first ≡ false }
    requires quote { lexing.is_quote first ≡ false }
    requires less { lexing.is_less first ≡ false }
    requires greater { lexing.is_greater first ≡ false }
    ensures value { of.IsBehindFirst (first ∷ behind.now) result.now }
    ensures within { length result.now ≤ length behind.now }
{
    match lone_symbol(first) {
        Some(_) => behind,
        None => &[],
    }
}

// Behind the token that begins with this byte.
fn behind_token(first: u8, behind: &[u8]) -> &[u8]
    requires { lexing.is_blank first ≡ false }
    ensures value { of.IsBehindFirst (first ∷ behind.now) result.now }
    ensures within { length result.now ≤ length behind.now }
{
    if is_letter(first) {
        behind_word(first, behind)
    } else if is_digit(first) {
        behind_digits(first, behind)
    } else if first == 39 {
        behind_text(behind)
    } else if first == 60 {
        behind_less(behind)
    } else if first == 62 {
        behind_greater(behind)
    } else {
        behind_lone(first, behind)
    }
}

// Behind the first token, where there is one.
fn behind_first(line: &[u8]) -> Option<&[u8]>
    ensures value { IfSome result (λ r. of.IsBehindFirst (lines.behind_blanks line.now) r.now) }
    ensures within { IfSome result (λ r. length r.now ≤ length line.now) }
{
    let (first, behind) = behind_blanks(line).split_first()?;
    if is_blank(*first) {
        return None;
    }
    Some(behind_token(*first, behind))
}

/// The bytes of a line from the token on that stands behind so many others, or those behind all blanks where these are all its
/// tokens. There are none where it has fewer.
pub fn tail_behind(count: usize, line: &[u8]) -> Option<&[u8]>
    ensures value { IfSome result (λ r. of.IsTail count line.now r.now) }
    ensures within { IfSome result (λ r. length r.now ≤ length line.now) }
{
    let mut rest = line;
    for _token in 0..count {
        match behind_first(rest) {
            Some(others) => rest = others,
            None => return None,
        }
    }
    Some(behind_blanks(rest))
}
