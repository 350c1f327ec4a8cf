// Reads statements.
ghost use Rattle.std.specs.Prelude.{◌≡◌};
ghost use Rattle.gx_grammar.specs.Code.{Gives};
ghost use Rattle.gx_grammar.specs.Rules.{starts, made_at, maybe_at, one_at};
ghost use Rattle.gx_lines.specs.Statements as of;
ghost use Rattle.gx_lines.specs.Queries as queries;
ghost use Rattle.gx_lines.specs.declared.syn.StmtSyn.TheVariants as stmt_syn;

use crate::classes::Strength;
use crate::joining::before_sign;
use crate::query::{Reading, part_behind, select};
use crate::syn::{AssignSyn, StmtSyn, TupleSyn};
use gx_grammar::{
    Limits, Part, ReadError, begins_with_word, is_word, read_first_expr, read_list, read_name,
    read_one, read_sign, read_word,
};
use gx_ids::Boxed;
use gx_lex::{Symbol, Token, Word};
use gx_modes::Mode;
use gx_tree::{Level, Txt};
use std::alloc::Global;

fn level<'a, 't>(tokens: &'a [Token<'t>]) -> Reading<'a, 't, Level>
    ensures { Gives (λ r. (r.0, r.1.now)) result (of.level_at tokens.now) }
{
    if begins_with_word(Word::Read, tokens) {
        let rest = read_word(Word::Read, tokens)?;
        let rest = read_word(Word::Committed, rest)?;
        Ok((Level::ReadCommitted, rest))
    } else {
        let rest = read_word(Word::Repeatable, tokens)?;
        let rest = read_word(Word::Read, rest)?;
        Ok((Level::RepeatableRead, rest))
    }
}

fn isolation<'a, 't>(tokens: &'a [Token<'t>]) -> Reading<'a, 't, Option<Level>>
    ensures { Gives (λ r. (r.0, r.1.now)) result (of.isolation_at tokens.now) }
{
    match tokens.split_first() {
        None => Ok((None, tokens)),
        Some((token, _)) => {
            if is_word(Word::Isolation, token) {
                let rest = read_word(Word::Isolation, tokens)?;
                let rest = read_word(Word::Level, rest)?;
                let (level, rest) = level(rest)?;
                Ok((Some(level), rest))
            } else {
                Ok((None, tokens))
            }
        }
    }
}

fn level_or<'t>(level: Option<Level>) -> StmtSyn<'t>
    ensures { result ≡ of.level_or level }
{
    match level {
        None => StmtSyn::Begin(Level::ReadCommitted),
        Some(level) => StmtSyn::Begin(level),
    }
}

fn begin<'a, 't>(tokens: &'a [Token<'t>]) -> Reading<'a, 't, StmtSyn<'t>>
    ensures { Gives (λ r. (r.0, r.1.now)) result (of.begin_at tokens.now) }
{
    let rest = read_word(Word::Begin, tokens)?;
    let (level, rest) = isolation(rest)?;
    Ok((level_or(level), rest))
}

fn commit<'a, 't>(tokens: &'a [Token<'t>]) -> Reading<'a, 't, StmtSyn<'t>>
    ensures { Gives (λ r. (r.0, r.1.now)) result (of.commit_at tokens.now) }
{
    let rest = read_word(Word::Commit, tokens)?;
    Ok((StmtSyn::Commit, rest))
}

fn rollback<'a, 't>(tokens: &'a [Token<'t>]) -> Reading<'a, 't, StmtSyn<'t>>
    ensures { Gives (λ r. (r.0, r.1.now)) result (of.rollback_at tokens.now) }
{
    let rest = read_word(Word::Rollback, tokens)?;
    Ok((StmtSyn::Rollback, rest))
}

fn selection<'a, 't>(
    alloc: Global,
    limits: Limits,
    tokens: &'a [Token<'t>],
) -> Reading<'a, 't, StmtSyn<'t>>
    ensures { Gives (λ r. (r.0, r.1.now)) result (made_at stmt_syn.Select (queries.select_at limits) tokens.now) }
{
    let (select, rest) = select(alloc, limits, tokens)?;
    Ok((StmtSyn::Select(Boxed::new(alloc, select)?), rest))
}

impl Part for TupleSyn {
    ghost use Rattle.gx_lines.specs.Statements.{tuple_at};

    ghost reads = { tuple_at };

    fn read<'a, 't>(
        alloc: Global,
        limits: Limits,
        tokens: &'a [Token<'t>],
    ) -> Result<(TupleSyn, &'a [Token<'t>]), ReadError> {
        let rest = read_sign(Symbol::Open, tokens)?;
        let (values, rest) = read_list(alloc, limits, rest)?;
        before_sign(TupleSyn { values }, Symbol::Close, rest)
    }
}

fn insert<'a, 't>(
    alloc: Global,
    limits: Limits,
    tokens: &'a [Token<'t>],
) -> Reading<'a, 't, StmtSyn<'t>>
    ensures { Gives (λ r. (r.0, r.1.now)) result (of.insert_at limits tokens.now) }
{
    let rest = read_word(Word::Insert, tokens)?;
    let rest = read_word(Word::Into, rest)?;
    let (table, rest) = read_name(limits, rest)?;
    let rest = read_word(Word::Values, rest)?;
    let (tuples, rest) = read_list(alloc, limits, rest)?;
    Ok((StmtSyn::Insert(table, tuples), rest))
}

impl Part for AssignSyn {
    ghost use Rattle.gx_lines.specs.Statements.{assign_at};

    ghost reads = { assign_at };

    fn read<'a, 't>(
        alloc: Global,
        limits: Limits,
        tokens: &'a [Token<'t>],
    ) -> Result<(AssignSyn, &'a [Token<'t>]), ReadError> {
        let (column, rest) = read_one(alloc, limits, tokens)?;
        let rest = read_sign(Symbol::Equal, rest)?;
        let (value, rest) = read_first_expr(alloc, limits, rest)?;
        Ok((AssignSyn { column, value }, rest))
    }
}

fn update<'a, 't>(
    alloc: Global,
    limits: Limits,
    tokens: &'a [Token<'t>],
) -> Reading<'a, 't, StmtSyn<'t>>
    ensures { Gives (λ r. (r.0, r.1.now)) result (of.update_at limits tokens.now) }
{
    let rest = read_word(Word::Update, tokens)?;
    let (table, rest) = read_name(limits, rest)?;
    let rest = read_word(Word::Set, rest)?;
    let (assigns, rest) = read_list(alloc, limits, rest)?;
    let (cond, rest) = part_behind(Word::Where, alloc, limits, rest)?;
    Ok((StmtSyn::Update(table, assigns, cond), rest))
}

fn delete<'a, 't>(
    alloc: Global,
    limits: Limits,
    tokens: &'a [Token<'t>],
) -> Reading<'a, 't, StmtSyn<'t>>
    ensures { Gives (λ r. (r.0, r.1.now)) result (of.delete_at limits tokens.now) }
{
    let rest = read_word(Word::Delete, tokens)?;
    let rest = read_word(Word::From, rest)?;
    let (table, rest) = read_name(limits, rest)?;
    let (cond, rest) = part_behind(Word::Where, alloc, limits, rest)?;
    Ok((StmtSyn::Delete(table, cond), rest))
}

fn access_mode(strength: Strength) -> Mode
    ensures { result ≡ of.access strength }
{
    match strength {
        Strength::Share => Mode::AccessShare,
        Strength::Exclusive => Mode::AccessExclusive,
    }
}

fn row_mode(strength: Strength) -> Mode
    ensures { result ≡ of.row strength }
{
    match strength {
        Strength::Share => Mode::RowShare,
        Strength::Exclusive => Mode::RowExclusive,
    }
}

fn share_mode(mode: Option<Mode>) -> Mode
    ensures { result ≡ of.share_or mode }
{
    match mode {
        None => Mode::Share,
        Some(mode) => mode,
    }
}

fn share_end<'a, 't>(tokens: &'a [Token<'t>]) -> Reading<'a, 't, Mode>
    ensures { Gives (λ r. (r.0, r.1.now)) result (of.share_end_at tokens.now) }
{
    if begins_with_word(Word::Update, tokens) {
        let rest = read_word(Word::Update, tokens)?;
        let rest = read_word(Word::Exclusive, rest)?;
        Ok((Mode::ShareUpdateExclusive, rest))
    } else {
        let rest = read_word(Word::Row, tokens)?;
        let rest = read_word(Word::Exclusive, rest)?;
        Ok((Mode::ShareRowExclusive, rest))
    }
}

fn begins_share_end(token: &Token) -> bool
    ensures { result ≡ of.begins_share_end token.now }
{
    is_word(Word::Update, token) || is_word(Word::Row, token)
}

fn maybe_share_end<'a, 't>(tokens: &'a [Token<'t>]) -> Reading<'a, 't, Option<Mode>>
    ensures { Gives (λ r. (r.0, r.1.now)) result (maybe_at of.begins_share_end of.share_end_at tokens.now) }
{
    match tokens.split_first() {
        None => Ok((None, tokens)),
        Some((token, _)) => {
            if begins_share_end(token) {
                let (mode, rest) = share_end(tokens)?;
                Ok((Some(mode), rest))
            } else {
                Ok((None, tokens))
            }
        }
    }
}

fn share<'a, 't>(tokens: &'a [Token<'t>]) -> Reading<'a, 't, Mode>
    ensures { Gives (λ r. (r.0, r.1.now)) result (of.share_at tokens.now) }
{
    let rest = read_word(Word::Share, tokens)?;
    let (mode, rest) = maybe_share_end(rest)?;
    Ok((share_mode(mode), rest))
}

fn access<'a, 't>(alloc: Global, limits: Limits, tokens: &'a [Token<'t>]) -> Reading<'a, 't, Mode>
    ensures { Gives (λ r. (r.0, r.1.now)) result (of.access_at tokens.now) }
{
    let rest = read_word(Word::Access, tokens)?;
    let (strength, rest) = read_one(alloc, limits, rest)?;
    Ok((access_mode(strength), rest))
}

fn row<'a, 't>(alloc: Global, limits: Limits, tokens: &'a [Token<'t>]) -> Reading<'a, 't, Mode>
    ensures { Gives (λ r. (r.0, r.1.now)) result (of.row_at tokens.now) }
{
    let rest = read_word(Word::Row, tokens)?;
    let (strength, rest) = read_one(alloc, limits, rest)?;
    Ok((row_mode(strength), rest))
}

fn exclusive<'a, 't>(tokens: &'a [Token<'t>]) -> Reading<'a, 't, Mode>
    ensures { Gives (λ r. (r.0, r.1.now)) result (of.exclusive_at tokens.now) }
{
    let rest = read_word(Word::Exclusive, tokens)?;
    Ok((Mode::Exclusive, rest))
}

fn mode<'a, 't>(alloc: Global, limits: Limits, tokens: &'a [Token<'t>]) -> Reading<'a, 't, Mode>
    ensures { Gives (λ r. (r.0, r.1.now)) result (of.mode_at tokens.now) }
{
    if begins_with_word(Word::Access, tokens) {
        access(alloc, limits, tokens)
    } else if begins_with_word(Word::Row, tokens) {
        row(alloc, limits, tokens)
    } else if begins_with_word(Word::Share, tokens) {
        share(tokens)
    } else {
        exclusive(tokens)
    }
}

fn lock<'a, 't>(
    alloc: Global,
    limits: Limits,
    tokens: &'a [Token<'t>],
) -> Reading<'a, 't, StmtSyn<'t>>
    ensures { Gives (λ r. (r.0, r.1.now)) result (of.lock_at limits tokens.now) }
{
    let rest = read_word(Word::Lock, tokens)?;
    let rest = read_word(Word::Table, rest)?;
    let (table, rest) = read_name(limits, rest)?;
    let rest = read_word(Word::In, rest)?;
    let (mode, rest) = mode(alloc, limits, rest)?;
    let rest = read_word(Word::Mode, rest)?;
    Ok((StmtSyn::Lock(table, mode), rest))
}

/// Reads the statement that stands first, and hands back the tokens behind it.
pub fn stmt<'a, 't>(
    alloc: Global,
    limits: Limits,
    tokens: &'a [Token<'t>],
) -> Reading<'a, 't, StmtSyn<'t>>
    ensures { Gives (λ r. (r.0, r.1.now)) result (of.stmt_at limits tokens.now) }
{
    if begins_with_word(Word::Begin, tokens) {
        begin(tokens)
    } else if begins_with_word(Word::Commit, tokens) {
        commit(tokens)
    } else if begins_with_word(Word::Rollback, tokens) {
        rollback(tokens)
    } else if begins_with_word(Word::Select, tokens) {
        selection(alloc, limits, tokens)
    } else if begins_with_word(Word::Insert, tokens) {
        insert(alloc, limits, tokens)
    } else if begins_with_word(Word::Update, tokens) {
        update(alloc, limits, tokens)
    } else if begins_with_word(Word::Delete, tokens) {
        delete(alloc, limits, tokens)
    } else {
        lock(alloc, limits, tokens)
    }
}
