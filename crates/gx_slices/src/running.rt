ghost use Rattle.std.specs.Prelude.{◌≡◌, ◌≤◌, true, false, nat_lt, IfOk, option_map};
ghost use Rattle.std.specs.Option.{ForSome};
ghost use Rattle.gx_rules.specs.Changes.{change_of, changes_rows, goes_on_at};
ghost use Rattle.gx_rules.specs.Fits.{is_waiting};
ghost use Rattle.gx_rules.specs.Running.{goes_on, runs_slice};
ghost use Rattle.gx_rules.specs.Segments.{after_marks, local_of};
ghost use Rattle.gx_rules.specs.Slices.{adds, locks, reads};
ghost use Rattle.gx_tree.specs.declared.slice.Slice.TheVariants as slice;
ghost use Rattle.gx_node.specs.Phases.{suspended_of};
ghost use Rattle.gx_slices.specs.Agrees.{IsHeld};
ghost use Rattle.gx_slices.specs.Changing.{Found, change_in, slice_in};
ghost use Rattle.gx_slices.specs.Ran.{HasProgressed, MayGoOn, MayRun};
ghost use Rattle.gx_slices.specs.Waiting.{is_open};

use crate::change::Change;
use crate::changing::Writer;
use crate::changing_rows::{change_rows, go_on_at};
use crate::held::Held;
use crate::inserting::insert;
use crate::locked::lock;
use crate::progress::{Progress, after, answered};
use crate::selecting::select;
use gx_dsnap::Snapshot;
use gx_ids::{Cid, Gxid, Mem, Node, Rid, Seq, Shared, Table};
use gx_msg::Reply;
use gx_node::Suspended;
use gx_outside::Passed;
use gx_store::Mark;
use gx_tree::{Assign, Cond, KeyedRow, Level, Query, Schema, Slice};
use std::alloc::Global;

/// What a command did here: its marks in order, and its answer, which is kept besides as the transaction's last.
#[derive(Drop)]
pub struct Ran {
    pub marks: Seq<Mark>,
    pub reply: Reply,
}

// A command that changes rows has a snapshot.
fn change_by(
    alloc: Global,
    held: &mut Held,
    writer: Writer,
    level: Level,
    snapshot: Option<Snapshot>,
    set: Option<Shared<Seq<Assign>>>,
    cond: Shared<Option<Cond>>,
    marks: Vec<Mark>,
) -> Mem<Progress>
    ghost found: { Found }
    requires was { held.old ≡ found.was }
    requires held { IsHeld found.tables held.old found.start }
    requires may { MayRun found.tables found.start writer.gxid writer.cid snapshot (slice_in writer.table set cond) }
    requires node { writer.node ≡ found.start.node }
    ensures { IfOk result (λ progress. HasProgressed found.tables held.new writer.gxid progress
        (after_marks marks.items (changes_rows found.start writer.gxid (change_of writer.cid level snapshot (slice_in writer.table set cond))))) }
{
    match snapshot {
        Some(snapshot) => {
            let change = Change {
                writer,
                level,
                snapshot,
                set,
                cond,
            };
            let progress = change_rows(alloc, held, change)?;
            let all = after(marks, progress)?;
            Ok(all)
        }
        None => unreachable!(),
    }
}

// The same without a SET list.
fn delete_by(
    alloc: Global,
    held: &mut Held,
    writer: Writer,
    level: Level,
    snapshot: Option<Snapshot>,
    cond: Shared<Option<Cond>>,
    marks: Vec<Mark>,
) -> Mem<Progress>
    ghost found: { Found }
    requires was { held.old ≡ found.was }
    requires held { IsHeld found.tables held.old found.start }
    requires may { MayRun found.tables found.start writer.gxid writer.cid snapshot (slice.Delete writer.table cond) }
    requires node { writer.node ≡ found.start.node }
    ensures { IfOk result (λ progress. HasProgressed found.tables held.new writer.gxid progress
        (after_marks marks.items (changes_rows found.start writer.gxid (change_of writer.cid level snapshot (slice.Delete writer.table cond))))) }
{
    change_by(alloc, held, writer, level, snapshot, None, cond, marks)
}

// A query has an answer.
fn run_select(
    alloc: Global,
    tables: &[Schema],
    held: &mut Held,
    gxid: Gxid,
    cid: Cid,
    snapshot: Option<Snapshot>,
    query: Shared<Query>,
    marks: Vec<Mark>,
) -> Mem<Progress>
    ghost found: { Found }
    requires tables { tables.now ≡ found.tables }
    requires held { IsHeld found.tables held.old found.start }
    requires may { MayRun found.tables found.start gxid cid snapshot (slice.Select query) }
    ensures { IfOk result (λ progress. HasProgressed found.tables held.new gxid progress (after_marks marks.items (reads found.start gxid cid query snapshot))) }
{
    let ran = select(alloc, tables, held, gxid, cid, &snapshot, query)?;
    let all = after(marks, answered(ran))?;
    Ok(all)
}

fn run_insert(
    alloc: Global,
    tables: &[Schema],
    held: &mut Held,
    writer: Writer,
    snapshot: Option<Snapshot>,
    rows: Shared<Seq<KeyedRow>>,
    marks: Vec<Mark>,
) -> Mem<Progress>
    ghost found: { Found }
    requires tables { tables.now ≡ found.tables }
    requires held { IsHeld found.tables held.old found.start }
    requires may { MayRun found.tables found.start writer.gxid writer.cid snapshot (slice.Insert writer.table rows) }
    requires node { writer.node ≡ found.start.node }
    ensures { IfOk result (λ progress. HasProgressed found.tables held.new writer.gxid progress (after_marks marks.items (adds found.start writer.gxid writer.cid writer.table rows snapshot))) }
{
    drop(snapshot);
    let ran = insert(alloc, tables, held, writer, rows.get().as_slice(), marks)?;
    Ok(answered(ran))
}

fn run_lock(
    alloc: Global,
    tables: &[Schema],
    held: &mut Held,
    gxid: Gxid,
    cid: Cid,
    snapshot: Option<Snapshot>,
    marks: Vec<Mark>,
) -> Mem<Progress>
    ghost found: { Found }
    requires tables { tables.now ≡ found.tables }
    requires held { IsHeld found.tables held.old found.start }
    requires alive { found.start.horizon.0 ≤ gxid.0 }
    requires open_here { is_open (local_of found.start gxid).phase ≡ true }
    requires free { is_waiting (local_of found.start gxid) ≡ false }
    requires new { nat_lt 0 cid.0 ≡ true }
    ensures { IfOk result (λ progress. HasProgressed found.tables held.new gxid progress (after_marks marks.items (locks found.start gxid cid))) }
{
    drop(snapshot);
    let ran = lock(alloc, tables, held, gxid, cid)?;
    let all = after(marks, answered(ran))?;
    Ok(all)
}

// Runs a command's slice for a transaction that reads or writes here, behind the marks so far, and keeps its answer. A SELECT answers the rows that
// the snapshot shows and on which its condition is true, or FAILED for the first fault; an INSERT adds its rows; an UPDATE or DELETE
// goes through those that it selects; a LOCK TABLE, of which the lock is held, has nothing more to do.
fn run_slice(
    alloc: Global,
    tables: &[Schema],
    node: Node,
    held: &mut Held,
    gxid: Gxid,
    command: Suspended,
    marks: Vec<Mark>,
) -> Mem<Progress>
    ghost found: { Found }
    requires tables { tables.now ≡ found.tables }
    requires was { held.old ≡ found.was }
    requires held { IsHeld found.tables held.old found.start }
    requires may { MayRun found.tables found.start gxid command.cid command.snapshot command.slice }
    requires node { node ≡ found.start.node }
    ensures { IfOk result (λ progress. HasProgressed found.tables held.new gxid progress
        (after_marks marks.items (runs_slice found.start gxid command.cid command.level command.snapshot command.slice))) }
{
    let Suspended {
        cid,
        level,
        snapshot,
        slice,
        rows,
        ..
    } = command;
    drop(rows);
    match slice {
        Slice::Select(query) => {
            run_select(alloc, tables, held, gxid, cid, snapshot, query, marks)
        }
        Slice::Insert(table, rows) => {
            let writer = Writer {
                node,
                gxid,
                cid,
                table,
            };
            run_insert(alloc, tables, held, writer, snapshot, rows, marks)
        }
        Slice::Update(table, assigns, cond) => {
            let writer = Writer {
                node,
                gxid,
                cid,
                table,
            };
            let given = Some(assigns);
            change_by(alloc, held, writer, level, snapshot, given, cond, marks)
        }
        Slice::Delete(table, cond) => {
            let writer = Writer {
                node,
                gxid,
                cid,
                table,
            };
            delete_by(alloc, held, writer, level, snapshot, cond, marks)
        }
        Slice::Lock(_table, _mode) => run_lock(alloc, tables, held, gxid, cid, snapshot, marks),
    }
}

fn writer_of(node: Node, gxid: Gxid, cid: Cid, table: Table) -> Writer
    ensures { result ≡ record { node = node; gxid = gxid; cid = cid; table = table } }
{
    Writer {
        node,
        gxid,
        cid,
        table,
    }
}

// The command's change of rows, if it is one and has a snapshot.
fn change_in_slice(
    node: Node,
    gxid: Gxid,
    cid: Cid,
    level: Level,
    snapshot: Option<Snapshot>,
    slice: Slice,
) -> Option<Change>
    ensures change { option_map change_in result ≡ change_of cid level snapshot slice }
    ensures writer { ForSome result (λ change. (change.writer.node ≡ node) × (change.writer.gxid ≡ gxid)) }
{
    let Some(snapshot) = snapshot else {
        drop(slice);
        return None;
    };
    match slice {
        Slice::Update(table, assigns, cond) => Some(Change {
            writer: writer_of(node, gxid, cid, table),
            level,
            snapshot,
            set: Some(assigns),
            cond,
        }),
        Slice::Delete(table, cond) => Some(Change {
            writer: writer_of(node, gxid, cid, table),
            level,
            snapshot,
            set: None,
            cond,
        }),
        other => {
            drop(snapshot);
            drop(other);
            None
        }
    }
}

// A slice that has waited at a row goes on there.
fn go_on_at_row(
    alloc: Global,
    node: Node,
    held: &mut Held,
    gxid: Gxid,
    command: Suspended,
    row: Rid,
    marks: Vec<Mark>,
) -> Mem<Progress>
    ghost found: { Found }
    requires was { held.old ≡ found.was }
    requires held { IsHeld found.tables held.old found.start }
    requires may { MayGoOn found.tables found.start gxid (suspended_of command) }
    requires node { node ≡ found.start.node }
    ensures { IfOk result (λ progress. HasProgressed found.tables held.new gxid progress
        (goes_on_at (record { seg = found.start; marks = marks.items }) gxid (change_of command.cid command.level command.snapshot command.slice) row (suspended_of command))) }
{
    let Suspended {
        cid,
        level,
        snapshot,
        slice,
        count,
        rows,
        ..
    } = command;
    match change_in_slice(node, gxid, cid, level, snapshot, slice) {
        Some(change) => go_on_at(alloc, held, change, row, rows, count, marks),
        None => Ok(Progress {
            marks: Seq::from_vec(marks),
            reply: None,
        }),
    }
}

/// A command's slice that has its table's lock, or that has got what it has waited for, goes on: behind these marks it runs, or looks
/// again at the row at which it has waited. It keeps its answer; or it waits again. The slice has entered the gate at this node.
/// After want of memory what is held is spent.
pub fn go_on(
    alloc: Global,
    tables: &[Schema],
    passed: Passed,
    held: &mut Held,
    gxid: Gxid,
    command: Suspended,
    marks: Vec<Mark>,
) -> Mem<Progress>
    ghost found: { Found }
    requires tables { tables.now ≡ found.tables }
    requires was { held.old ≡ found.was }
    requires held { IsHeld found.tables held.old found.start }
    requires may { MayGoOn found.tables found.start gxid (suspended_of command) }
    requires passed { passed ≡ found.start.node }
    ensures { IfOk result (λ progress. HasProgressed found.tables held.new gxid progress
        (goes_on (record { seg = found.start; marks = marks.items }) gxid (suspended_of command) command.row)) }
{
    let node = passed.node();
    match command.row {
        Some(row) => go_on_at_row(alloc, node, held, gxid, command, row, marks),
        None => run_slice(alloc, tables, node, held, gxid, command, marks),
    }
}
