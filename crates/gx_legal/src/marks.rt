// What is looked up in marks, mostly from the last on.
ghost use Rattle.std.specs.Prelude.{◌≡◌, ◌∷◌, []};
ghost use Rattle.gx_store.specs.Commands.{has_own_snapshot as is_served};
ghost use Rattle.gx_store.specs.Marks.{has_snapshot as is_read_by, is_aborted as has_aborted, is_committed as has_committed, is_processed as was_processed};
ghost use Rattle.gx_store.specs.Marks.{is_snapped as was_snapped, is_written as was_written, node_of as home_of, row_table, write_count as count_of};

use crate::command::Command;
use gx_ids::{Cid, Gxid, Node, Rid, Table};
use gx_store::Mark;
use gx_tree::Level;

/// Whether the transaction has committed.
pub fn is_committed(marks: &[Mark], gxid: Gxid) -> bool
    ensures { result ≡ has_committed marks.now gxid }
{
    for place in (0..marks.len()).rev() {
        if is_commit(&marks[place], gxid) {
            return true;
        }
    }
    false
}

fn is_commit(mark: &Mark, gxid: Gxid) -> bool
    ensures { result ≡ has_committed (mark.now ∷ []) gxid }
{
    match mark {
        Mark::Commit { gxid: committed } => *committed == gxid,
        _ => false,
    }
}

/// Whether the transaction has aborted.
pub fn is_aborted(marks: &[Mark], gxid: Gxid) -> bool
    ensures { result ≡ has_aborted marks.now gxid }
{
    for place in (0..marks.len()).rev() {
        if is_abort(&marks[place], gxid) {
            return true;
        }
    }
    false
}

fn is_abort(mark: &Mark, gxid: Gxid) -> bool
    ensures { result ≡ has_aborted (mark.now ∷ []) gxid }
{
    match mark {
        Mark::Abort { gxid: aborted } => *aborted == gxid,
        _ => false,
    }
}

/// Whether the command has its snapshot.
pub fn has_own_snapshot(marks: &[Mark], command: Command) -> bool
    ensures { result ≡ is_served command.level marks.now command.gxid command.cid }
{
    match command.level {
        Level::ReadCommitted => is_snapped(marks, command.gxid, command.cid),
        Level::RepeatableRead => has_snapshot(marks, command.gxid),
    }
}

fn is_snapped(marks: &[Mark], gxid: Gxid, cid: Cid) -> bool
    ensures { result ≡ was_snapped marks.now gxid cid }
{
    for place in (0..marks.len()).rev() {
        if is_own_snap(&marks[place], gxid, cid) {
            return true;
        }
    }
    false
}

fn is_own_snap(mark: &Mark, gxid: Gxid, cid: Cid) -> bool
    ensures { result ≡ was_snapped (mark.now ∷ []) gxid cid }
{
    match mark {
        Mark::Snap {
            gxid: g,
            cid: c,
            ..
        } => *g == gxid && *c == cid,
        _ => false,
    }
}

fn has_snapshot(marks: &[Mark], gxid: Gxid) -> bool
    ensures { result ≡ is_read_by marks.now gxid }
{
    for place in (0..marks.len()).rev() {
        if is_snap(&marks[place], gxid) {
            return true;
        }
    }
    false
}

fn is_snap(mark: &Mark, gxid: Gxid) -> bool
    ensures { result ≡ is_read_by (mark.now ∷ []) gxid }
{
    match mark {
        Mark::Snap { gxid: g, .. } => *g == gxid,
        _ => false,
    }
}

// Whether the row was written.
pub(crate) fn is_written(marks: &[Mark], rid: Rid) -> bool
    ensures { result ≡ was_written marks.now rid }
{
    for mark in marks {
        if let Mark::Write { rid: row, .. } = mark {
            if *row == rid {
                return true;
            }
        }
    }
    false
}

// Whether the command has written the row, or skipped it.
pub(crate) fn is_processed(marks: &[Mark], gxid: Gxid, cid: Cid, rid: Rid) -> bool
    ensures { result ≡ was_processed marks.now gxid cid rid }
{
    for mark in marks {
        if is_processing(mark, gxid, cid, rid) {
            return true;
        }
    }
    false
}

fn is_processing(mark: &Mark, gxid: Gxid, cid: Cid, rid: Rid) -> bool
    ensures { result ≡ was_processed (mark.now ∷ []) gxid cid rid }
{
    match mark {
        Mark::Write {
            gxid: g,
            cid: c,
            rid: row,
            ..
        }
        | Mark::Skip {
            gxid: g,
            cid: c,
            rid: row,
        } => *g == gxid && *c == cid && *row == rid,
        _ => false,
    }
}

// How many rows the command has written.
pub(crate) fn write_count(marks: &[Mark], gxid: Gxid, cid: Cid) -> usize
    ensures { result ≡ count_of marks.now gxid cid }
{
    let mut count = 0usize;
    for mark in marks {
        if let Mark::Write {
            gxid: g,
            cid: c,
            ..
        } = mark
        {
            if *g == gxid && *c == cid {
                count += 1;
            }
        }
    }
    count
}

// The node of the row's first write.
pub(crate) fn node_of(marks: &[Mark], rid: Rid) -> Option<Node>
    ensures { result ≡ home_of marks.now rid }
{
    for mark in marks {
        if let Mark::Write { node, rid: row, .. } = mark {
            if *row == rid {
                return Some(*node);
            }
        }
    }
    None
}

// The table of the row's first write.
pub(crate) fn table_of(marks: &[Mark], rid: Rid) -> Option<Table>
    ensures { result ≡ row_table marks.now rid }
{
    for mark in marks {
        if let Mark::Write {
            table,
            rid: row,
            ..
        } = mark
        {
            if *row == rid {
                return Some(*table);
            }
        }
    }
    None
}
