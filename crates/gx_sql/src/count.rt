// The counts that a line may pass.
ghost use Rattle.std.specs.Prelude.{◌≡◌, ◌↔◌, ◌≤◌, IfOk, IsTrue, ◌&&◌, not, nat_le, length};
ghost use Rattle.gx_grammar.specs.Code.{Says};
ghost use Rattle.gx_grammar.specs.Rules.{whole_at};
ghost use Rattle.gx_sql.specs.Begun.{begun_table_at, IsFull};
ghost use Rattle.gx_sql.specs.Begun as begun;
ghost use Rattle.gx_sql.specs.Counts as of;
ghost use Rattle.gx_sql.specs.Held.{named};
ghost use Rattle.gx_sql.specs.declared.refusal.Limit.{Limit};

use crate::refusal::Limit;
use gx_grammar::{
    Fault, Limits, ReadError, is_sign, is_word, read_list, read_one, read_sign, read_word,
};
use gx_ids::{Mem, OutOfMemory, Seq};
use gx_lex::{Symbol, Token, Word};
use gx_lines::ColumnSyn;
use gx_tree::Txt;
use indexmap::IndexMap;
use std::alloc::Global;

const SESSIONS: usize = 64;

const TABLES: usize = 64;

const GROUPS: usize = 64;

const COLUMNS: usize = 32;

/// Whether the session is a further one than there may be.
#[tactic(auto, using(crate::proofs::Held::is_session_named, crate::proofs::Held::length_named))]
fn is_further(sessions: &IndexMap<Vec<u8>, u32>, name: &[u8]) -> bool
    ensures { result ≡ (nat_le 64 (length (named sessions.now.entries)) && not (of.is_session name.now (named sessions.now.entries))) }
{
    SESSIONS <= sessions.len() && !sessions.contains_key(name)
}

pub fn passes_sessions(sessions: &IndexMap<Vec<u8>, u32>, tokens: &[Token]) -> bool
    ensures { result ≡ of.passes_sessions (named sessions.now.entries) tokens.now }
{
    match tokens.first() {
        Some(Token::Name(name)) => is_further(sessions, name.as_slice()),
        _ => false,
    }
}

pub fn passes_tables(tables: usize, tokens: &[Token]) -> bool
    ensures { result ≡ of.passes_tables tables tokens.now }
{
    match tokens {
        [first, Token::Name(_), ..] => TABLES <= tables && is_word(Word::Table, first),
        _ => false,
    }
}

pub fn passes_groups(groups: usize, tokens: &[Token]) -> bool
    ensures { result ≡ of.passes_groups groups tokens.now }
{
    match tokens {
        [first, Token::Name(_), ..] => GROUPS <= groups && is_word(Word::Group, first),
        _ => false,
    }
}

/// Reads tokens that are a table's line up to its last column.
fn begun_table(
    alloc: Global,
    limits: Limits,
    tokens: &[Token],
) -> Result<(Txt, Seq<ColumnSyn>), ReadError>
    ensures { Says result (whole_at (begun_table_at limits) tokens.now) }
{
    let rest = read_word(Word::Table, tokens)?;
    let (name, rest) = read_one(alloc, limits, rest)?;
    let rest = read_sign(Symbol::Open, rest)?;
    let (columns, rest) = read_list(alloc, limits, rest)?;
    if rest.is_empty() {
        Ok((name, columns))
    } else {
        Err(ReadError::Fault(Fault::Syntax, rest.len()))
    }
}

fn goes_on(tokens: &[Token]) -> bool
    ensures { result ≡ begun.goes_on tokens.now }
{
    match tokens {
        [first, Token::Name(_), ..] => is_sign(Symbol::Comma, first),
        _ => false,
    }
}

/// Whether the tokens are a table's line up to its 32nd column.
fn is_full(alloc: Global, limits: Limits, tokens: &[Token]) -> Mem<bool>
    ensures { IfOk result (λ b. IsTrue b ↔ IsFull limits tokens.now) }
{
    match begun_table(alloc, limits, tokens) {
        Ok((_name, columns)) => Ok(columns.len() == COLUMNS),
        Err(ReadError::Fault(_, _)) => Ok(false),
        Err(ReadError::OutOfMemory) => Err(OutOfMemory),
    }
}

pub fn passes_columns(alloc: Global, limits: Limits, tokens: &[Token]) -> Mem<bool>
    ensures { IfOk result (λ b. IsTrue b ↔ of.PassesColumns limits tokens.now) }
{
    // Three tokens, then three a column but the last comma.
    if tokens.len() < 100 {
        return Ok(false);
    }
    let (begun, rest) = tokens.split_at(98);
    if goes_on(rest) {
        is_full(alloc, limits, begun)
    } else {
        Ok(false)
    }
}
