// The lines of marks.
ghost use Rattle.std.specs.Prelude.{IfOk};
ghost use Rattle.gx_script.specs.declared.Script.{Script as AnyScript};
ghost use Rattle.gx_trace.specs.Readers.{IsEnd, IsRead, IsReaderOf};
ghost use Rattle.gx_trace_lines.specs.Marks as of;
ghost use Rattle.gx_trace_lines.specs.Choices.{nothing, on};

use crate::choices::skips;
use crate::detector::{recheck, report};
use crate::locking::{hold, release, wait};
use crate::rows::{fault, skipped, write};
use crate::snapshots::snapped;
use crate::transactions::{
    abort, answered, begin, commit, decided, journal, local, prepared, restarted, sent,
};
use gx_ids::{Mem, Seq};
use gx_script::Script;
use gx_trace::{Cursor, SeenMark};
use gx_waits::{Edge, Verdict};
use std::alloc::Global;

/// What the line of a mark shows: the whole mark, or one of the two lines of a recheck.
#[derive(Drop)]
pub enum MarkLine {
    Alone(SeenMark),
    /// The coordinator's own graph in a round. How the round ended stands on the next line.
    Own(u64, Seq<Edge>),
    /// How a round ended.
    Ended(u64, Verdict),
}

fn detector_mark<'a>(alloc: Global, cursor: &mut Cursor<'a>) -> Mem<Option<MarkLine>>
    ensures { IfOk result (λ read. IsRead read cursor.new (of.detector_mark cursor.old)) }
{
    if skips(cursor, b"report") {
        report(alloc, cursor)
    } else if skips(cursor, b"recheck") {
        recheck(alloc, cursor)
    } else if skips(cursor, b"snap") {
        snapped(alloc, cursor)
    } else if skips(cursor, b"restart") {
        Ok(restarted(cursor))
    } else {
        Ok(None)
    }
}

fn lock_mark<'a>(alloc: Global, cursor: &mut Cursor<'a>, script: &Script) -> Mem<Option<MarkLine>>
    ensures { IfOk result (λ read. IsRead read cursor.new (of.lock_mark script.now cursor.old)) }
{
    if skips(cursor, b"hold") {
        Ok(hold(cursor, script))
    } else if skips(cursor, b"wait") {
        Ok(wait(cursor, script))
    } else if skips(cursor, b"release") {
        Ok(release(cursor, script))
    } else {
        detector_mark(alloc, cursor)
    }
}

fn row_mark<'a>(alloc: Global, cursor: &mut Cursor<'a>, script: &Script) -> Mem<Option<MarkLine>>
    ensures { IfOk result (λ read. IsRead read cursor.new (of.row_mark script.now cursor.old)) }
{
    if skips(cursor, b"write") {
        write(alloc, cursor, script)
    } else if skips(cursor, b"skip") {
        Ok(skipped(cursor))
    } else if skips(cursor, b"fault") {
        fault(alloc, cursor)
    } else {
        lock_mark(alloc, cursor, script)
    }
}

fn end_mark<'a>(alloc: Global, cursor: &mut Cursor<'a>, script: &Script) -> Mem<Option<MarkLine>>
    ensures { IfOk result (λ read. IsRead read cursor.new (of.end_mark script.now cursor.old)) }
{
    if skips(cursor, b"decided") {
        Ok(decided(cursor))
    } else if skips(cursor, b"prepared") {
        Ok(prepared(cursor))
    } else if skips(cursor, b"local") {
        Ok(local(cursor))
    } else if skips(cursor, b"journal") {
        Ok(journal(cursor))
    } else if skips(cursor, b"send") {
        sent(alloc, cursor)
    } else {
        row_mark(alloc, cursor, script)
    }
}

/// Reads the line of a mark, behind its two blanks.
pub fn mark_line<'a>(
    alloc: Global,
    cursor: &mut Cursor<'a>,
    script: &Script,
) -> Mem<Option<MarkLine>>
    ensures { IfOk result (λ read. IsRead read cursor.new (of.mark_line script.now cursor.old)) }
{
    if skips(cursor, b"begin") {
        Ok(begin(cursor, script))
    } else if skips(cursor, b"commit") {
        Ok(commit(cursor))
    } else if skips(cursor, b"abort") {
        Ok(abort(cursor))
    } else if skips(cursor, b"answer") {
        Ok(answered(cursor, script))
    } else {
        end_mark(alloc, cursor, script)
    }
}

/// The lines of marks are read as they are printed.
pub fn mark_lines_are_read()
    ensures { (script : AnyScript) → IsReaderOf (of.mark_line_text script) (of.IsMarkLine script) IsEnd (of.mark_line script) }
{}
