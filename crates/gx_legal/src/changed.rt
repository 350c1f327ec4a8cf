ghost use Rattle.std.specs.Prelude.{◌≡◌, ◌↔◌, IfOk, IsTrue};
ghost use Rattle.gx_store.specs.Answers.{Changes};
ghost use Rattle.gx_store.specs.Marks.{write_count as count_of};
ghost use Rattle.gx_legal.specs.Faulted.{is_whole as has_truth};
ghost use Rattle.gx_legal.specs.Own.{IsOwn};
ghost use Rattle.gx_legal.specs.RowsDone.{are_done as were_done, are_done_in as are_all_in, faults_on_none as fault_on_none, has_changed as may_have_changed, is_done_at as was_done_at, is_done_by as was_done_by};

use crate::command::Command;
use crate::marks::write_count;
use crate::places::is_snapshot;
use crate::processed::processed;
use crate::selecting::{condition, is_met};
use crate::viewing::view;
use crate::writing::before;
use gx_ids::{Mem, Rid, Table};
use gx_meaning::ArithFault;
use gx_store::Mark;
use gx_tree::{Cond, KeyedRow};
use std::alloc::Global;
use std::collections::BTreeSet;

/// Whether an UPDATE or DELETE has written or skipped each row that it selects, and has written so many.
pub fn changes(
    alloc: Global,
    marks: &[Mark],
    own: &[Mark],
    command: Command,
    table: Table,
    cond: &Option<Cond>,
    count: u128,
) -> Mem<bool>
    requires { IsOwn command.gxid marks.now own.now }
    ensures { IfOk result (λ holds. IsTrue holds ↔ Changes marks.now command.level command.gxid command.cid table cond.now count) }
{
    has_changed(alloc, marks, own, command, table, cond, count)
}

pub(crate) fn has_changed(
    alloc: Global,
    marks: &[Mark],
    own: &[Mark],
    command: Command,
    table: Table,
    cond: &Option<Cond>,
    count: u128,
) -> Mem<bool>
    requires { IsOwn command.gxid marks.now own.now }
    ensures { IfOk result (λ holds. holds ≡ may_have_changed marks.now command.level command.gxid command.cid table cond.now count) }
{
    if count != own_count(marks, own, command) as u128 {
        return Ok(false);
    }
    for place in (0..marks.len()).rev() {
        if is_snapshot(&marks[place], command)
            && is_done_at(alloc, marks, own, command, table, cond, place)?
        {
            return Ok(true);
        }
    }
    Ok(false)
}

// How many rows the command has written, by its transaction's own marks.
fn own_count(_marks: &[Mark], own: &[Mark], command: Command) -> usize
    requires { IsOwn command.gxid _marks.now own.now }
    ensures { result ≡ count_of _marks.now command.gxid command.cid }
{
    write_count(own, command.gxid, command.cid)
}

fn is_done_at(
    alloc: Global,
    marks: &[Mark],
    own: &[Mark],
    command: Command,
    table: Table,
    cond: &Option<Cond>,
    place: usize,
) -> Mem<bool>
    requires { IsOwn command.gxid marks.now own.now }
    ensures { IfOk result (λ holds. holds ≡ was_done_at marks.now command.gxid command.cid table cond.now place) }
{
    let reader = Some((command.gxid, command.cid));
    let rows = view(alloc, marks, before(marks, place), reader, table)?;
    is_done_by(alloc, marks, own, command, cond, rows.as_slice())
}

fn is_done_by(
    alloc: Global,
    marks: &[Mark],
    own: &[Mark],
    command: Command,
    cond: &Option<Cond>,
    rows: &[KeyedRow],
) -> Mem<bool>
    requires { IsOwn command.gxid marks.now own.now }
    ensures { IfOk result (λ holds. holds ≡ was_done_by marks.now command.gxid command.cid cond.now rows.now) }
{
    match faults_on_none(alloc, cond, rows) {
        Ok(true) => are_done(alloc, marks, own, command, cond, rows),
        other => other,
    }
}

// Whether the condition faults on none of the rows.
pub(crate) fn faults_on_none(alloc: Global, cond: &Option<Cond>, rows: &[KeyedRow]) -> Mem<bool>
    ensures { IfOk result (λ holds. holds ≡ fault_on_none cond.now rows.now) }
{
    for row in rows {
        if !is_whole(condition(alloc, cond, &row.row)?) {
            return Ok(false);
        }
    }
    Ok(true)
}

fn is_whole(truth: Result<bool, ArithFault>) -> bool
    ensures { result ≡ has_truth truth }
{
    match truth {
        Ok(_) => true,
        Err(_) => false,
    }
}

fn are_done(
    alloc: Global,
    _marks: &[Mark],
    own: &[Mark],
    command: Command,
    cond: &Option<Cond>,
    rows: &[KeyedRow],
) -> Mem<bool>
    requires { IsOwn command.gxid _marks.now own.now }
    ensures { IfOk result (λ holds. holds ≡ were_done _marks.now command.gxid command.cid cond.now rows.now) }
{
    let done = processed(alloc, own, command)?;
    are_done_in(alloc, &done, cond, rows)
}

// Whether each of the rows on which the condition is true is in the set.
fn are_done_in(
    alloc: Global,
    done: &BTreeSet<Rid>,
    cond: &Option<Cond>,
    rows: &[KeyedRow],
) -> Mem<bool>
    ensures { IfOk result (λ holds. holds ≡ are_all_in done.now cond.now rows.now) }
{
    for row in rows {
        let chosen = is_met(condition(alloc, cond, &row.row)?);
        if chosen && !done.contains(&row.rid) {
            return Ok(false);
        }
    }
    Ok(true)
}
