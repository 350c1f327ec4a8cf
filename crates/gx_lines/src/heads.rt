// Reads heads and lines.
ghost use Rattle.std.specs.Prelude.{◌≡◌, List};
ghost use Rattle.gx_grammar.specs.Code.{Gives};
ghost use Rattle.gx_lex.specs.declared.symbol.Symbol.TheVariants as sign;
ghost use Rattle.gx_grammar.specs.Rules.{starts, behind_at, both_at};
ghost use Rattle.gx_grammar.specs.Tokens as class;
ghost use Rattle.gx_grammar.specs.Tokens.{enclosed_at, listed_at};
ghost use Rattle.gx_lines.specs.Statements.{stmt_at};
ghost use Rattle.gx_lines.specs.Heads as of;

use crate::classes::{Segments, read_number};
use crate::joining::{before_sign, paired};
use crate::query::{Reading, enclosed_name};
use crate::stmts::stmt;
use crate::syn::{ColumnSyn, DistSyn, GroupSyn, LineSyn, LinkSyn, StmtSyn, TableSyn};
use gx_grammar::{
    Limits, Part, ReadError, begins_with_word, is_sign, is_word, read_list, read_name, read_one,
    read_sign, read_word,
};
use gx_ids::Seq;
use gx_lex::{Symbol, Token, Word};
use std::alloc::Global;

/// Reads the number of segments that stands first.
pub fn segments<'a, 't>(
    alloc: Global,
    limits: Limits,
    tokens: &'a [Token<'t>],
) -> Reading<'a, 't, Segments>
    ensures { Gives (λ r. (r.0, r.1.now)) result (of.segments_at limits tokens.now) }
{
    let rest = read_word(Word::Segments, tokens)?;
    let (segments, rest) = read_one(alloc, limits, rest)?;
    Ok((segments, rest))
}

fn detector<'a, 't>(
    alloc: Global,
    limits: Limits,
    tokens: &'a [Token<'t>],
) -> Reading<'a, 't, LineSyn<'t>>
    ensures { Gives (λ r. (r.0, r.1.now)) result (of.detector_at tokens.now) }
{
    let rest = read_word(Word::Detector, tokens)?;
    let (switch, rest) = read_one(alloc, limits, rest)?;
    Ok((LineSyn::Detector(switch), rest))
}

impl Part for ColumnSyn {
    ghost use Rattle.gx_lines.specs.Heads.{column_at};

    ghost reads = { column_at };

    fn read<'a, 't>(
        alloc: Global,
        limits: Limits,
        tokens: &'a [Token<'t>],
    ) -> Result<(ColumnSyn, &'a [Token<'t>]), ReadError> {
        let (name, rest) = read_one(alloc, limits, tokens)?;
        let (kind, rest) = read_one(alloc, limits, rest)?;
        Ok((ColumnSyn { name, kind }, rest))
    }
}

fn columns<'a, 't>(
    alloc: Global,
    limits: Limits,
    tokens: &'a [Token<'t>],
) -> Reading<'a, 't, Seq<ColumnSyn>>
    ensures { Gives (λ r. (r.0, r.1.now)) result (enclosed_at (listed_at (of.column_at limits)) tokens.now) }
{
    let rest = read_sign(Symbol::Open, tokens)?;
    let (columns, rest) = read_list(alloc, limits, rest)?;
    before_sign(columns, Symbol::Close, rest)
}

fn dist<'a, 't>(alloc: Global, limits: Limits, tokens: &'a [Token<'t>]) -> Reading<'a, 't, DistSyn>
    ensures { Gives (λ r. (r.0, r.1.now)) result (of.dist_at limits tokens.now) }
{
    if begins_with_word(Word::By, tokens) {
        let rest = read_word(Word::By, tokens)?;
        let (column, rest) = enclosed_name(alloc, limits, rest)?;
        Ok((DistSyn::By(column), rest))
    } else {
        let rest = read_word(Word::Randomly, tokens)?;
        Ok((DistSyn::Randomly, rest))
    }
}

fn table<'a, 't>(
    alloc: Global,
    limits: Limits,
    tokens: &'a [Token<'t>],
) -> Reading<'a, 't, LineSyn<'t>>
    ensures { Gives (λ r. (r.0, r.1.now)) result (of.table_at limits tokens.now) }
{
    let rest = read_word(Word::Table, tokens)?;
    let (name, rest) = read_one(alloc, limits, rest)?;
    let (columns, rest) = columns(alloc, limits, rest)?;
    let rest = read_word(Word::Distributed, rest)?;
    let (dist, rest) = dist(alloc, limits, rest)?;
    Ok((
        LineSyn::Table(TableSyn {
            name,
            columns,
            dist,
        }),
        rest,
    ))
}

fn link<'a, 't>(
    alloc: Global,
    segments: u64,
    limits: Limits,
    tokens: &'a [Token<'t>],
) -> Reading<'a, 't, LineSyn<'t>>
    ensures { Gives (λ r. (r.0, r.1.now)) result (of.link_at segments tokens.now) }
{
    let (fate, rest) = read_one(alloc, limits, tokens)?;
    let (way, rest) = read_one(alloc, limits, rest)?;
    let (segment, rest) = read_number(1, segments, rest)?;
    let rest = read_word(Word::Number, rest)?;
    let (number, rest) = read_number(1, 18446744073709551615, rest)?;
    Ok((
        LineSyn::Link(LinkSyn {
            fate,
            way,
            segment,
            number,
        }),
        rest,
    ))
}

fn group<'a, 't>(
    alloc: Global,
    limits: Limits,
    tokens: &'a [Token<'t>],
) -> Reading<'a, 't, LineSyn<'t>>
    ensures { Gives (λ r. (r.0, r.1.now)) result (of.group_at limits tokens.now) }
{
    let rest = read_word(Word::Group, tokens)?;
    let (name, rest) = read_one(alloc, limits, rest)?;
    let rest = read_word(Word::Limit, rest)?;
    let (limit, rest) = read_number(1, 18446744073709551615, rest)?;
    let rest = read_word(Word::In, rest)?;
    let (sessions, rest) = read_list(alloc, limits, rest)?;
    Ok((
        LineSyn::Group(GroupSyn {
            name,
            limit,
            sessions,
        }),
        rest,
    ))
}

/// The semicolon that may end a line.
fn end<'a, 't>(tokens: &'a [Token<'t>]) -> Reading<'a, 't, Option<()>>
    ensures { Gives (λ r. (r.0, r.1.now)) result (of.end_at tokens.now) }
{
    match tokens.split_first() {
        None => Ok((None, tokens)),
        Some((token, rest)) => {
            if is_sign(Symbol::Semicolon, token) {
                Ok((Some(()), rest))
            } else {
                Ok((None, tokens))
            }
        }
    }
}

// The statement behind the name of a session.
fn command<'a, 't>(
    alloc: Global,
    limits: Limits,
    tokens: &'a [Token<'t>],
) -> Reading<'a, 't, (StmtSyn<'t>, Option<()>)>
    ensures { Gives (λ r. (r.0, r.1.now)) result (both_at (behind_at (class.is_sign sign.Colon) (stmt_at limits)) of.end_at tokens.now) }
{
    let rest = read_sign(Symbol::Colon, tokens)?;
    let (stmt, rest) = stmt(alloc, limits, rest)?;
    paired(stmt, end(rest))
}

/// Reads the session's line that stands first.
pub fn session<'a, 't>(
    alloc: Global,
    limits: Limits,
    tokens: &'a [Token<'t>],
) -> Reading<'a, 't, LineSyn<'t>>
    ensures { Gives (λ r. (r.0, r.1.now)) result (of.session_at limits tokens.now) }
{
    let (name, rest) = read_name(limits, tokens)?;
    let ((name, (stmt, _end)), rest) = paired(name, command(alloc, limits, rest))?;
    Ok((LineSyn::Session(name, stmt), rest))
}

fn is_fate(token: &Token) -> bool
    ensures { result ≡ of.is_fate token.now }
{
    is_word(Word::Lose, token) || is_word(Word::Repeat, token)
}

fn begins_with_fate(tokens: &[Token]) -> bool
    ensures { result ≡ starts of.is_fate tokens.now }
{
    match tokens.first() {
        Some(token) => is_fate(token),
        None => false,
    }
}

/// Reads the head or the session's line that stands first.
pub fn head<'a, 't>(
    alloc: Global,
    segments: u64,
    limits: Limits,
    tokens: &'a [Token<'t>],
) -> Reading<'a, 't, LineSyn<'t>>
    ensures { Gives (λ r. (r.0, r.1.now)) result (of.head_at segments limits tokens.now) }
{
    if begins_with_word(Word::Detector, tokens) {
        detector(alloc, limits, tokens)
    } else if begins_with_word(Word::Table, tokens) {
        table(alloc, limits, tokens)
    } else if begins_with_fate(tokens) {
        link(alloc, segments, limits, tokens)
    } else if begins_with_word(Word::Group, tokens) {
        group(alloc, limits, tokens)
    } else {
        session(alloc, limits, tokens)
    }
}
