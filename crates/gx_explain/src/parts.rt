// Where the parts of a statement stand among the tokens of its line.
ghost use Rattle.std.specs.Prelude.{◌≡◌, ◌≤◌, ◌<◌, ◌+◌, [], false, true, length, drop, IfOk};
ghost use Rattle.gx_explain.specs.Parts as of;

use gx_grammar::{is_sign, is_word};
use gx_lex::{Symbol, Token, Word};

/// How many tokens stand before the first that is this keyword.
pub fn before_word(word: Word, tokens: &[Token]) -> usize
    ensures value { result ≡ of.before_word word tokens.now }
    ensures within { result ≤ length tokens.now }
{
    for count in 0..tokens.len() {
        if is_word(word, &tokens[count]) {
            return count;
        }
    }
    tokens.len()
}

pub fn is_table_word(token: &Token) -> bool
    ensures { result ≡ of.is_table_word token.now }
{
    is_word(Word::From, token)
        || is_word(Word::Into, token)
        || is_word(Word::Update, token)
        || is_word(Word::Table, token)
}

/// How many tokens stand before the name of the table.
pub fn before_table(tokens: &[Token]) -> usize
    ensures { result ≡ of.before_table tokens.now }
{
    for count in 0..tokens.len() {
        if is_table_word(&tokens[count]) {
            return count + 1;
        }
    }
    tokens.len() + 1
}

/// The tokens behind so many.
pub fn behind<'a, 't>(count: usize, tokens: &'a [Token<'t>]) -> &'a [Token<'t>]
    ensures { result.now ≡ drop count tokens.now }
{
    if count <= tokens.len() {
        &tokens[count..]
    } else {
        &[]
    }
}

fn depth_behind(depth: usize, token: &Token) -> usize
    requires { depth < 9223372036854775807 }
    ensures value { result ≡ of.depth_behind depth token.now }
    ensures few { result ≤ depth + 1 }
{
    if is_sign(Symbol::Open, token) {
        depth + 1
    } else if is_sign(Symbol::Close, token) {
        depth.saturating_sub(1)
    } else {
        depth
    }
}

fn parts_behind(parts: usize, depth: usize, token: &Token) -> usize
    ensures { result ≡ of.parts_behind parts depth token.now }
{
    if depth == 0 && is_sign(Symbol::Comma, token) {
        parts.saturating_sub(1)
    } else {
        parts
    }
}

/// How many tokens stand before a part of a list between commas, of which so many parts stand before it.
pub fn before_part(count: usize, tokens: &[Token]) -> usize
    ensures value { result ≡ of.before_part count 0 tokens.now }
    ensures within { result ≤ length tokens.now }
{
    let mut parts = count;
    let mut depth = 0usize;
    let mut place = 0usize;
    for token in tokens {
        if parts == 0 {
            return place;
        }
        parts = parts_behind(parts, depth, token);
        depth = depth_behind(depth, token);
        place += 1;
    }
    place
}

/// The same of a list that begins behind so many tokens.
pub fn before_listed(first: usize, count: usize, tokens: &[Token]) -> usize
    requires { first ≤ 9223372036854775807 }
    ensures { result ≡ first + of.before_part count 0 (drop first tokens.now) }
{
    first + before_part(count, behind(first, tokens))
}
