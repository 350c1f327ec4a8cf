// Hints for the usual mistakes. Nothing is proved of them.
use crate::rules::rules_on;
use crate::spelled::sign_text;
use gx_grammar::begins_with_word;
use gx_lex::byte::{is_capital, is_word_byte, small};
use gx_lex::{Token, Word};
use gx_sql::refusal::LineFault;

/// How a token comes to be where it can't stand.
#[derive(Clone, Copy)]
pub enum Stray {
    /// It is a keyword, and a name could stand there.
    Keyword,
    /// It is a word with capitals that is no keyword, or no token at all.
    Bad,
    /// It could stand there by the grammar.
    Fitting,
    Other,
}

// What stands at the place of a fault: the clause, how the token before is written, the mark of what stands there, and the bytes
// from the place on.
#[derive(Clone, Copy)]
struct Spot<'a> {
    clause: &'static [u8],
    last: &'a [u8],
    mark: &'static [u8],
    tail: &'a [u8],
}

// Whether bytes begin with this word, in letters of either case, or with this sign.
fn begins(spelling: &[u8], bytes: &[u8]) -> bool {
    for place in 0..spelling.len() {
        if bytes.len() <= place || small(bytes[place]) != spelling[place] {
            return false;
        }
    }
    !is_within_word(bytes, spelling.len())
}

// Whether a word goes on at a place of bytes.
fn is_within_word(bytes: &[u8], place: usize) -> bool {
    0 < place && place < bytes.len() && is_word_byte(bytes[place - 1]) && is_word_byte(bytes[place])
}

fn is_any(wanted: &[u8], found: &[u8]) -> bool {
    wanted.is_empty() || wanted == found
}

// The bytes before the first ~ and those behind it, or all of them where there is none.
fn cut(bytes: &'static [u8]) -> (&'static [u8], &'static [u8]) {
    for place in 0..bytes.len() {
        if bytes[place] == b'~' {
            return (&bytes[..place], &bytes[place + 1..]);
        }
    }
    (bytes, &[])
}

// The hint of a rule where it is one for these, or nothing.
fn hint_of(rule: &'static [u8], spot: &Spot) -> &'static [u8] {
    let (of_clause, rest) = cut(rule);
    let (behind, rest) = cut(rest);
    let (here, hint) = cut(rest);
    if is_any(of_clause, spot.clause)
        && is_any(behind, spot.last)
        && (is_any(here, spot.mark) || begins(here, spot.tail))
    {
        hint
    } else {
        b""
    }
}

// How the last of tokens is written, in small letters, and nothing of a number or of a text.
fn last_of<'a>(tokens: &'a [Token]) -> &'a [u8] {
    match tokens.last() {
        Some(Token::Word(word)) => word.text(),
        Some(Token::Name(name)) => name.as_slice(),
        Some(Token::Symbol(sign)) => sign_text(*sign),
        Some(_) => b"",
        None => b"$",
    }
}

// The clause that begins with this word, or else the one before it.
fn clause_at(word: Word, clause: &'static [u8]) -> &'static [u8] {
    match word {
        Word::Select | Word::From | Word::Where | Word::Group | Word::Order | Word::Limit =>
            word.text(),
        Word::Into | Word::Values | Word::Set | Word::Lock | Word::Count | Word::Distributed =>
            word.text(),
        _ => clause,
    }
}

// The clause of a line behind these tokens, or this one.
fn clause_behind(tokens: &[Token], front: &'static [u8]) -> &'static [u8] {
    let mut clause = front;
    for token in tokens {
        if let Token::Word(word) = token {
            clause = clause_at(*word, clause);
        }
    }
    clause
}

// The same. The head of a link and that of a group have no other clause.
fn clause_of(tokens: &[Token], front: &'static [u8]) -> &'static [u8] {
    if begins_with_word(Word::Group, tokens) {
        b"groups"
    } else if begins_with_word(Word::Lose, tokens) {
        b"lose"
    } else if begins_with_word(Word::Repeat, tokens) {
        b"repeat"
    } else {
        clause_behind(tokens, front)
    }
}

// The mark of what stands at a place, by how it came to be there.
fn mark_of(stray: Stray, tail: &[u8]) -> &'static [u8] {
    let Some(byte) = tail.first() else {
        return b"End";
    };
    match stray {
        Stray::Keyword => b"Keyword",
        Stray::Fitting => b"Fitting",
        Stray::Bad => {
            if is_capital(*byte) {
                b"Capital"
            } else if *byte == 39 {
                b"Quote"
            } else {
                b""
            }
        }
        Stray::Other => b"",
    }
}

/// The hint for a fault behind these tokens, in a line that stands at this front of the script, or nothing.
pub fn hint(
    fault: LineFault,
    stray: Stray,
    front: &'static [u8],
    tokens: &[Token],
    tail: &[u8],
) -> &'static [u8] {
    let spot = Spot {
        clause: clause_of(tokens, front),
        last: last_of(tokens),
        mark: mark_of(stray, tail),
        tail,
    };
    for rule in rules_on(fault).split('\n') {
        let hint = hint_of(rule.as_bytes(), &spot);
        if !hint.is_empty() {
            return hint;
        }
    }
    b""
}
