// Where in a refused line its fault is.
ghost use Rattle.std.specs.Prelude.{◌≡◌, ◌≤◌, ◌+◌, ◌-◌, List, IfOk, IfSome, length};
ghost use Rattle.std.specs.Option.{option_map, ForSome};
ghost use Rattle.gx_lines.specs.Heads.{segments as segments_line};
ghost use Rattle.gx_sql.specs.Held.{AreTables, IsHeld, named, progress_of, schemas};
ghost use Rattle.gx_explain.specs.Places as of;

use crate::grouped::told_place;
use crate::kinds::{key_update_place, mismatch_place};
use crate::names::{before_repeated, before_unknown};
use crate::parts::{before_table, before_word, behind};
use gx_grammar::ReadError;
use gx_ids::{Mem, OutOfMemory, Table};
use gx_lex::{Token, Word};
use gx_lines::{LineSyn, StmtSyn, read_head_line, read_segments_line, read_session_line};
use gx_sql::progress::{Progress, find_table, forget_line};
use gx_sql::refusal::LineFault;
use gx_sql::{Limit, limits};
use gx_tree::Schema;
use std::alloc::Global;

// The place at which a count is passed.
fn counted(fault: LineFault) -> Option<usize>
    ensures { result ≡ of.counted fault }
{
    match fault {
        LineFault::TooMany(Limit::Sessions) => Some(0),
        LineFault::TooMany(Limit::Tables) => Some(1),
        LineFault::TooMany(Limit::Groups) => Some(1),
        LineFault::TooMany(Limit::Columns) => Some(99),
        LineFault::TooMany(Limit::Lines) => Some(0),
        _ => None,
    }
}

fn table_place(alloc: Global, fault: LineFault, tokens: &[Token]) -> Mem<usize>
    ensures { IfOk result (λ place. place ≡ of.table_place fault tokens.now) }
{
    match fault {
        LineFault::Syntax => before_repeated(alloc, false, tokens),
        LineFault::UnknownColumn => Ok(before_word(Word::By, tokens) + 2),
        _ => Ok(1),
    }
}

fn session_place(
    alloc: Global,
    schema: &Schema,
    stmt: &StmtSyn,
    fault: LineFault,
    tokens: &[Token],
) -> Mem<usize>
    requires { length schema.now.columns ≤ 256 }
    ensures { IfOk result (λ place. place ≡ of.session_place schema.now stmt.now fault tokens.now) }
{
    let columns = schema.columns.as_slice();
    match fault {
        LineFault::Syntax => before_repeated(alloc, true, tokens),
        LineFault::UnknownColumn => Ok(1 + before_unknown(columns, behind(1, tokens))),
        LineFault::TypeMismatch => mismatch_place(alloc, columns, stmt, tokens),
        LineFault::KeyUpdate => key_update_place(alloc, columns, schema.dist, stmt, tokens),
        _ => Ok(0),
    }
}

fn found_place(
    alloc: Global,
    found: Option<(Table, &Schema)>,
    stmt: &StmtSyn,
    fault: LineFault,
    tokens: &[Token],
) -> Mem<usize>
    requires { ForSome found (λ f. length f.1.now.columns ≤ 256) }
    ensures { IfOk result (λ place. place ≡ of.found_place (option_map (λ f. (f.0, f.1.now)) found.entry) stmt.now fault tokens.now) }
{
    match found {
        None => Ok(before_table(tokens)),
        Some((_place, schema)) => session_place(alloc, schema, stmt, fault, tokens),
    }
}

// Where a line that is written by the grammar is wrong.
fn written_place(
    alloc: Global,
    progress: &Progress,
    line: &LineSyn,
    fault: LineFault,
    tokens: &[Token],
) -> Mem<usize>
    requires { IsHeld progress.now }
    ensures { IfOk result (λ place. place ≡ of.written_place progress.now.groups.items (named progress.now.members.entries) (schemas progress.now.tables.entries) line.now fault tokens.now) }
{
    match line {
        LineSyn::Detector(_) => Ok(0),
        LineSyn::Table(_) => table_place(alloc, fault, tokens),
        LineSyn::Link(_) => Ok(0),
        LineSyn::Group(group) => told_place(alloc, progress, group, tokens),
        LineSyn::Session(_, stmt) => {
            let found = find_table(&progress.tables, stmt);
            found_place(alloc, found, stmt, fault, tokens)
        }
    }
}

fn segments_place(alloc: Global, tokens: &[Token]) -> Mem<Option<usize>>
    ensures { IfOk result (λ found. IfSome found (of.IsStopped segments_line tokens.now)) }
{
    match read_segments_line(alloc, limits(), tokens) {
        Ok(_) => Ok(None),
        Err(ReadError::Fault(_, left)) => Ok(tokens.len().checked_sub(left)),
        Err(ReadError::OutOfMemory) => Err(OutOfMemory),
    }
}

// Where a line that was read is wrong.
fn place_in(
    alloc: Global,
    progress: &Progress,
    line: LineSyn,
    fault: LineFault,
    tokens: &[Token],
) -> Mem<Option<usize>>
    requires { IsHeld progress.now }
    ensures { IfOk result (λ found. IfSome found (λ place. place ≡ of.written_place progress.now.groups.items (named progress.now.members.entries) (schemas progress.now.tables.entries) line.entry fault tokens.now)) }
{
    let place = written_place(alloc, progress, &line, fault, tokens);
    forget_line(line);
    Ok(Some(place?))
}

// Where tokens are wrong of which this was read.
fn place_of(
    alloc: Global,
    progress: &Progress,
    read: Result<LineSyn, ReadError>,
    fault: LineFault,
    tokens: &[Token],
) -> Mem<Option<usize>>
    requires { IsHeld progress.now }
    ensures { IfOk result (λ found. IfSome found (of.IsPlaceOf progress.now.groups.items (named progress.now.members.entries) (schemas progress.now.tables.entries) fault tokens.now read.entry)) }
{
    match read {
        Ok(line) => place_in(alloc, progress, line, fault, tokens),
        Err(ReadError::Fault(_, left)) => Ok(tokens.len().checked_sub(left)),
        Err(ReadError::OutOfMemory) => Err(OutOfMemory),
    }
}

// The place by the rule of the line, or by what it says.
fn read_place(
    alloc: Global,
    progress: &Progress,
    fault: LineFault,
    tokens: &[Token],
) -> Mem<Option<usize>>
    requires held { IsHeld progress.now }
    ensures { IfOk result (λ found. IfSome found (of.IsPlaceIn progress.now.segments progress.now.lines.items progress.now.groups.items (named progress.now.members.entries) (schemas progress.now.tables.entries) fault tokens.now)) }
{
    match progress.segments {
        None => segments_place(alloc, tokens),
        Some(segments) => {
            if progress.lines.is_empty() {
                let read = read_head_line(alloc, segments, limits(), tokens);
                place_of(alloc, progress, read, fault, tokens)
            } else {
                let read = read_session_line(alloc, limits(), tokens);
                place_of(alloc, progress, read, fault, tokens)
            }
        }
    }
}

/// How many tokens of a line stand before the one with which this fault comes, behind what the lines before it said. A line with
/// this fault has such a token.
pub fn find_place(
    alloc: Global,
    progress: &Progress,
    fault: LineFault,
    tokens: &[Token],
) -> Mem<Option<usize>>
    requires held { IsHeld progress.now }
    ensures { IfOk result (λ found. IfSome found (of.IsPlace (progress_of progress.now) fault tokens.now)) }
{
    match counted(fault) {
        Some(place) => Ok(Some(place)),
        None => read_place(alloc, progress, fault, tokens),
    }
}
