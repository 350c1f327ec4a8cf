// Where a name stands among the tokens of its line that isn't right there.
ghost use Rattle.std.specs.Prelude.{◌≡◌, ◌≤◌, ◌+◌, [], false, true, nat_eq, length, IfOk, OnOk};
ghost use Rattle.std.specs.List.{list_any};
ghost use Rattle.std.specs.Cmp.Lexicographic.{pointwise};
ghost use Rattle.gx_resolve.specs.Naming as naming;
ghost use Rattle.gx_explain.specs.Parts as of;

use crate::parts::is_table_word;
use gx_grammar::{is_sign, is_word};
use gx_ids::Mem;
use gx_lex::{Name, Symbol, Token, Word};
use gx_tree::Column;
use std::alloc::Global;

fn is_column(columns: &[Column], name: &[u8]) -> bool
    ensures { result ≡ naming.is_column columns.now name.now }
{
    for column in columns {
        if column.name.as_slice() == name {
            return true;
        }
    }
    false
}

fn is_unknown(columns: &[Column], behind: bool, token: &Token) -> bool
    ensures { result ≡ of.is_unknown columns.now behind token.now }
{
    match token {
        Token::Name(name) => !behind && !is_column(columns, name.as_slice()),
        _ => false,
    }
}

/// How many tokens stand before the first name that is no column, and no table's.
pub fn before_unknown(columns: &[Column], tokens: &[Token]) -> usize
    ensures value { result ≡ of.before_unknown columns.now false tokens.now }
    ensures within { result ≤ length tokens.now }
{
    let mut behind = false;
    for place in 0..tokens.len() {
        if is_unknown(columns, behind, &tokens[place]) {
            return place;
        }
        behind = is_table_word(&tokens[place]);
    }
    tokens.len()
}

fn opens(assigned: bool, token: &Token) -> bool
    ensures { result ≡ of.opens assigned token.now }
{
    if assigned {
        is_word(Word::Set, token) || is_sign(Symbol::Comma, token)
    } else {
        is_sign(Symbol::Open, token) || is_sign(Symbol::Comma, token)
    }
}

fn is_among(names: &[Name], name: &[u8]) -> bool
    ensures { result ≡ naming.is_among names.now name.now }
{
    for other in names {
        if other.as_slice() == name {
            return true;
        }
    }
    false
}

fn is_repeated(names: &[Name], opened: bool, token: &Token) -> bool
    ensures { result ≡ of.is_repeated names.now opened token.now }
{
    match token {
        Token::Name(name) => opened && is_among(names, name.as_slice()),
        _ => false,
    }
}

fn add_name<'t>(names: &mut Vec<Name<'t>>, opened: bool, token: &Token<'t>) -> Mem<()>
    ensures { OnOk result (names.new.items ≡ of.with_name names.old.items opened token.now) }
{
    if let Token::Name(name) = token {
        if opened {
            names.push(name.again())?;
        }
    }
    Ok(())
}

// How many tokens stand before the first column that is repeated, with a list for the names.
fn before_again<'t>(names: &mut Vec<Name<'t>>, assigned: bool, tokens: &[Token<'t>]) -> Mem<usize>
    ensures { IfOk result (λ place. place ≡ of.before_repeated assigned names.old.items false tokens.now) }
{
    let mut opened = false;
    for place in 0..tokens.len() {
        let token = &tokens[place];
        if is_repeated(names.as_slice(), opened, token) {
            return Ok(place);
        }
        add_name(names, opened, token)?;
        opened = opens(assigned, token);
    }
    Ok(tokens.len())
}

/// How many tokens stand before the first column that SET assigns once more, or that a table line declares once more.
pub fn before_repeated(alloc: Global, assigned: bool, tokens: &[Token]) -> Mem<usize>
    ensures { IfOk result (λ place. place ≡ of.before_repeated assigned [] false tokens.now) }
{
    let mut names = Vec::new(alloc);
    let place = before_again(&mut names, assigned, tokens);
    drop(names);
    place
}
