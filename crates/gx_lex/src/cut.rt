// Cuts a line into tokens, one after the other.
ghost use Rattle.std.specs.Prelude.{◌≡◌, ◌≤◌, ◌-◌, List, ◌∷◌, [], ◌++◌, true, false, drop, length, IfOk, OnOk, MatchOption, Some};
ghost use Rattle.std.specs.List.{list_any, prefix_len};
ghost use Rattle.gx_lex.specs.Lexing as of;
ghost use Rattle.gx_lex.specs.Reader as reader;
ghost use Rattle.gx_lex.specs.Symbols.{symbol_of};
ghost use Rattle.gx_lex.specs.declared.token.Token.{Token};

use crate::byte::{is_blank, is_capital, is_digit, is_letter, is_word_byte};
use crate::name::Name;
use crate::symbol::{Symbol, lone_symbol};
use crate::token::Token;
use crate::word::keyword_in_any_case;
use gx_ids::Mem;
use gx_tree::Txt;
use std::alloc::Global;

fn word_len(line: &[u8]) -> usize
    ensures value { result ≡ prefix_len of.is_word_byte line.now }
    ensures within { result ≤ length line.now }
{
    line.iter().take_while(|byte| is_word_byte(**byte)).count()
}

fn has_capital(word: &[u8]) -> bool
    ensures { result ≡ list_any of.is_capital word.now }
{
    word.iter().any(|byte| is_capital(*byte))
}

/// The token of a word.
#[tactic(auto, using(crate::proofs::Runs::small_already))]
fn word_token<'a>(word: &'a [u8]) -> Token<'a>
    ensures { result ≡ reader.word_token (of.smalls word.now) (list_any of.is_capital word.now) }
{
    match keyword_in_any_case(word) {
        Some(keyword) => Token::Word(keyword),
        None => {
            if has_capital(word) {
                Token::Bad
            } else {
                Token::Name(Name::new(word))
            }
        }
    }
}

/// The word that stands first, and the bytes behind it.
fn word<'a>(line: &'a [u8]) -> (Token<'a>, &'a [u8])
    ensures said { (out : List Token) → reader.lex_on line.now out (reader.InWord [] false) ≡ reader.lex_on result.1.now (out ++ result.0 ∷ []) reader.Gap }
    ensures behind { result.1.now ≡ drop (prefix_len of.is_word_byte line.now) line.now }
{
    let (word, behind) = line.split_at(word_len(line));
    (word_token(word), behind)
}

/// The number that a further digit makes.
fn grown(number: Option<u64>, digit: u8) -> Option<u64>
    requires { of.is_digit digit ≡ true }
    ensures { result ≡ reader.grown number digit }
{
    number?.checked_mul(10)?.checked_add((digit - 48) as u64)
}

/// The number that begins with this digit, and the bytes behind it.
fn number<'a>(first: u8, behind: &'a [u8]) -> (Token<'a>, &'a [u8])
    requires { of.is_digit first ≡ true }
    ensures said { (out : List Token) → reader.lex_on behind.now out (reader.InNumber (Some (first - 48))) ≡ reader.lex_on result.1.now (out ++ result.0 ∷ []) reader.Gap }
    ensures within { length result.1.now ≤ length behind.now }
{
    let mut number = Some((first - 48) as u64);
    let mut rest = behind;
    while let Some((byte, others)) = rest.split_first() {
        if !is_digit(*byte) {
            return (Token::Number(number), rest);
        }
        number = grown(number, *byte);
        rest = others;
    }
    (Token::Number(number), rest)
}

/// The bytes behind a quote, where one stands first.
fn behind_quote(line: &[u8]) -> Option<&[u8]>
    ensures { MatchOption result (of.Without of.is_quote line.now) (λ r. line.now ≡ 39 ∷ r.now) }
{
    match line.split_first() {
        Some((byte, rest)) if *byte == 39 => Some(rest),
        _ => None,
    }
}

/// The text of which these bytes are left behind its first quote, and the bytes behind it.
fn text<'a>(alloc: Global, line: &'a [u8]) -> Mem<(Token<'a>, &'a [u8])>
    ensures said { IfOk result (λ r. (out : List Token) → reader.lex_on line.now out (reader.InText []) ≡ reader.lex_on r.1.now (out ++ r.0 ∷ []) reader.Gap) }
    ensures within { IfOk result (λ r. length r.1.now ≤ length line.now) }
{
    let mut text = Vec::new(alloc);
    let mut rest = line;
    while let Some((byte, behind)) = rest.split_first() {
        if *byte != 39 {
            text.push(*byte)?;
            rest = behind;
        } else {
            match behind_quote(behind) {
                Some(others) => {
                    text.push(39)?;
                    rest = others;
                }
                None => return Ok((Token::Text(Txt::from_vec(text)), behind)),
            }
        }
    }
    Ok((Token::Bad, rest))
}

/// The sign that begins with `<`, and the bytes behind it.
fn less<'a>(behind: &'a [u8]) -> (Token<'a>, &'a [u8])
    ensures said { (out : List Token) → reader.lex_on behind.now out reader.BehindLess ≡ reader.lex_on result.1.now (out ++ result.0 ∷ []) reader.Gap }
    ensures within { length result.1.now ≤ length behind.now }
{
    match behind.split_first() {
        None => (Token::Symbol(Symbol::Less), behind),
        Some((next, rest)) => {
            if *next == 61 {
                (Token::Symbol(Symbol::LessEqual), rest)
            } else if *next == 62 {
                (Token::Symbol(Symbol::NotEqual), rest)
            } else {
                (Token::Symbol(Symbol::Less), behind)
            }
        }
    }
}

/// The sign that begins with `>`, and the bytes behind it.
fn greater<'a>(behind: &'a [u8]) -> (Token<'a>, &'a [u8])
    ensures said { (out : List Token) → reader.lex_on behind.now out reader.BehindGreater ≡ reader.lex_on result.1.now (out ++ result.0 ∷ []) reader.Gap }
    ensures within { length result.1.now ≤ length behind.now }
{
    match behind.split_first() {
        None => (Token::Symbol(Symbol::Greater), behind),
        Some((next, rest)) => {
            if *next == 61 {
                (Token::Symbol(Symbol::GreaterEqual), rest)
            } else {
                (Token::Symbol(Symbol::Greater), behind)
            }
        }
    }
}

/// The sign of one byte, or what no token begins with, and the bytes behind it.
fn lone<'a>(first: u8, behind: &'a [u8]) -> (Token<'a>, &'a [u8])
    ensures said { (out : List Token) → reader.lex_on behind.now (reader.put_symbol out (symbol_of first)).0 (reader.put_symbol out (symbol_of first)).1
        ≡ reader.lex_on result.1.now (out ++ result.0 ∷ []) reader.Gap }
    ensures within { length result.1.now ≤ length behind.now }
{
    match lone_symbol(first) {
        Some(symbol) => (Token::Symbol(symbol), behind),
        None => (Token::Bad, &[]),
    }
}

/// The token that begins with this byte, which is no blank, and the bytes behind it.
fn token<'a>(
    alloc: Global,
    line: &'a [u8],
    first: u8,
    behind: &'a [u8],
) -> Mem<(Token<'a>, &'a [u8])>
    requires first { line.now ≡ first ∷ behind.now }
    requires begins { of.is_blank first ≡ false }
    ensures said { IfOk result (λ r. (out : List Token) → reader.lex_on line.now out reader.Gap ≡ reader.lex_on r.1.now (out ++ r.0 ∷ []) reader.Gap) }
    ensures within { IfOk result (λ r. length r.1.now ≤ length behind.now) }
{
    if is_letter(first) {
        Ok(word(line))
    } else if is_digit(first) {
        Ok(number(first, behind))
    } else if first == 39 {
        text(alloc, behind)
    } else if first == 60 {
        Ok(less(behind))
    } else if first == 62 {
        Ok(greater(behind))
    } else {
        Ok(lone(first, behind))
    }
}

/// Cuts the bytes into tokens, which take the place of those that the list had.
fn cut<'a>(alloc: Global, line: &'a [u8], tokens: &mut Vec<Token<'a>>) -> Mem<()>
    ensures { OnOk result (tokens.new.items ≡ reader.lex line.now) }
{
    tokens.clear();
    let mut rest = line;
    while let Some((byte, behind)) = rest.split_first() {
        if is_blank(*byte) {
            rest = behind;
        } else {
            let (token, others) = token(alloc, rest, *byte, behind)?;
            tokens.push(token)?;
            rest = others;
        }
    }
    Ok(())
}

/// Gives the tokens of a line's bytes, which are those without its line feed and a carriage return before it, in a list whose
/// room serves one line after the other. Each token is the longest that can stand at its place, and tokens need no blank
/// between them where they can be told apart.
pub fn cut_line<'a>(alloc: Global, line: &'a [u8], tokens: &mut Vec<Token<'a>>) -> Mem<()>
    // The line is written as the tokens say.
    ensures cut { OnOk result (of.Lexes tokens.new.items line.now) }
    // No other tokens write the line.
    ensures only { (ts : List Token) → of.Lexes ts line.now → OnOk result (tokens.new.items ≡ ts) }
{
    cut(alloc, line, tokens)
}
