// Whether a SELECT has answered its query on the rows that it sees.
ghost use Rattle.std.specs.Prelude.{◌≡◌, IfOk};
ghost use Rattle.gx_legal.specs.Told.{are_same_cells as same_cells, has_shown as did_show, is_same_answer as same_answers, is_shown_at as was_shown_at, is_shown_by as was_shown_by, met_rows as rows_met, whole_answer as answer_on};

use crate::changed::faults_on_none;
use crate::command::Command;
use crate::places::is_snapshot;
use crate::selecting::{condition, is_met};
use crate::viewing::view;
use crate::writing::before;
use gx_gather::{merge_parts, partial};
use gx_ids::{Duplicate, Mem};
use gx_store::Mark;
use gx_tree::{Cell, Cond, KeyedRow, OutRow, Query};
use std::alloc::Global;

/// Whether by one of the command's snapshots the query has this answer, and its condition faults on none of the rows.
pub(crate) fn has_shown(
    alloc: Global,
    marks: &[Mark],
    command: Command,
    query: &Query,
    answer: &[OutRow],
) -> Mem<bool>
    ensures { IfOk result (λ holds. holds ≡ did_show marks.now command.level command.gxid command.cid query.now answer.now) }
{
    for place in (0..marks.len()).rev() {
        if is_snapshot(&marks[place], command)
            && is_shown_at(alloc, marks, command, query, answer, place)?
        {
            return Ok(true);
        }
    }
    Ok(false)
}

fn is_shown_at(
    alloc: Global,
    marks: &[Mark],
    command: Command,
    query: &Query,
    answer: &[OutRow],
    place: usize,
) -> Mem<bool>
    ensures { IfOk result (λ holds. holds ≡ was_shown_at marks.now command.gxid command.cid query.now answer.now place) }
{
    let reader = Some((command.gxid, command.cid));
    let rows = view(alloc, marks, before(marks, place), reader, query.table)?;
    is_shown_by(alloc, query, answer, rows.as_slice())
}

fn is_shown_by(alloc: Global, query: &Query, answer: &[OutRow], rows: &[KeyedRow]) -> Mem<bool>
    ensures { IfOk result (λ holds. holds ≡ was_shown_by query.now answer.now rows.now) }
{
    if !faults_on_none(alloc, &query.cond, rows)? {
        return Ok(false);
    }
    let whole = whole_answer(alloc, query, rows)?;
    Ok(is_same_answer(answer, whole.as_slice()))
}

fn whole_answer(alloc: Global, query: &Query, rows: &[KeyedRow]) -> Mem<Vec<OutRow>>
    ensures { IfOk result (λ out. out.items ≡ answer_on query.now rows.now) }
{
    let met = met_rows(alloc, &query.cond, rows)?;
    let mut parts = Vec::new(alloc);
    parts.push(partial(alloc, query, met.as_slice())?)?;
    merge_parts(alloc, query, parts.as_slice())
}

fn met_rows(alloc: Global, cond: &Option<Cond>, rows: &[KeyedRow]) -> Mem<Vec<KeyedRow>>
    ensures { IfOk result (λ met. met.items ≡ rows_met cond.now rows.now) }
{
    let mut met = Vec::new(alloc);
    for row in rows {
        if is_met(condition(alloc, cond, &row.row)?) {
            met.push(row.copy(alloc)?)?;
        }
    }
    Ok(met)
}

fn is_same_answer(rows: &[OutRow], others: &[OutRow]) -> bool
    ensures { result ≡ same_answers rows.now others.now }
{
    if rows.len() != others.len() {
        return false;
    }
    for (row, other) in rows.iter().zip(others) {
        if !are_same_cells(row.as_slice(), other.as_slice()) {
            return false;
        }
    }
    true
}

fn are_same_cells(cells: &[Cell], others: &[Cell]) -> bool
    ensures { result ≡ same_cells cells.now others.now }
{
    *cells == *others
}
