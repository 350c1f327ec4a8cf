// A line of each kind, taken whole.
ghost use Rattle.std.specs.Prelude.{IfOk, codes};
ghost use Rattle.gx_trace.specs.Fields.{count};
ghost use Rattle.gx_trace.specs.Readers.{IsRead, behind};
ghost use Rattle.gx_trace_lines.specs.Answers as answers;
ghost use Rattle.gx_trace_lines.specs.Cells as cells;
ghost use Rattle.gx_trace_lines.specs.Events as events;
ghost use Rattle.gx_trace_lines.specs.Marks as marks;
ghost use Rattle.gx_trace_lines.specs.Tables as tables;
ghost use Rattle.gx_read_trace.specs.Machine.{all_of};
ghost use Rattle.gx_read_trace.specs.Rests.{IsWhole, Takes};

use crate::fault::TraceFault;
use crate::lines::Lines;
use gx_ids::Mem;
use gx_script::Script;
use gx_trace::Cursor;
use gx_trace_lines::{
    AnswerHead, MarkLine, Moment, answer_head, event_line, mark_line, out_row, table_head,
    table_row,
};
use gx_tree::{Column, OutRow, Row};
use std::alloc::Global;

// What was read from the line taken last, where nothing of it is left.
fn whole<'a, T: Drop>(
    read: Option<T>,
    cursor: &Cursor<'a>,
    lines: &Lines<'a>,
) -> Result<T, TraceFault>
    ensures { (front : _) → IsRead read cursor.now front → IsWhole (all_of front) lines.now result }
{
    match read {
        Some(read) => {
            if cursor.is_at_end() {
                Ok(read)
            } else {
                drop(read);
                Err(lines.fault())
            }
        }
        None => Err(lines.fault()),
    }
}

/// Takes the first line of the answer to the line of this number of the session of this name.
#[tactic(auto, using(crate::proofs::Onward::whole_takes, crate::proofs::Onward::missing_takes))]
pub fn take_answer_head<'a>(
    lines: &mut Lines<'a>,
    name: &[u8],
    number: u32,
) -> Result<AnswerHead, TraceFault>
    ensures { Takes (λ line. all_of (answers.answer_head name.now number line)) lines.old lines.new result }
{
    let line = lines.line()?;
    let mut cursor = Cursor::new(line);
    let head = answer_head(&mut cursor, name, number);
    whole(head, &cursor, lines)
}

/// Takes the line of a row of an answer.
#[tactic(auto, using(crate::proofs::Onward::whole_takes, crate::proofs::Onward::missing_takes))]
pub fn take_out_row<'a>(alloc: Global, lines: &mut Lines<'a>) -> Result<OutRow, TraceFault>
    ensures { Takes (λ line. all_of (cells.out_row line)) lines.old lines.new result }
{
    let line = lines.line()?;
    let mut cursor = Cursor::new(line);
    let row = out_row(alloc, &mut cursor)?;
    whole(row, &cursor, lines)
}

/// Takes the line above a table's rows.
#[tactic(auto, using(crate::proofs::Onward::whole_takes, crate::proofs::Onward::missing_takes))]
pub fn take_table_head<'a>(lines: &mut Lines<'a>, name: &[u8]) -> Result<u64, TraceFault>
    ensures { Takes (λ line. all_of (tables.table_head name.now line)) lines.old lines.new result }
{
    let line = lines.line()?;
    let mut cursor = Cursor::new(line);
    let count = table_head(&mut cursor, name);
    whole(count, &cursor, lines)
}

/// Takes the line of a table's row.
#[tactic(auto, using(crate::proofs::Onward::whole_takes, crate::proofs::Onward::missing_takes))]
pub fn take_table_row<'a>(
    alloc: Global,
    lines: &mut Lines<'a>,
    columns: &[Column],
) -> Result<Row, TraceFault>
    ensures { Takes (λ line. all_of (tables.table_row columns.now line)) lines.old lines.new result }
{
    let line = lines.line()?;
    let mut cursor = Cursor::new(line);
    let row = table_row(alloc, &mut cursor, columns)?;
    whole(row, &cursor, lines)
}

fn run_count<'a>(cursor: &mut Cursor<'a>) -> Option<u64>
    ensures { IsRead result cursor.new (behind (codes "run") count cursor.old) }
{
    cursor.skip(b"run")?;
    cursor.count()
}

/// Takes the line above the events, which has their number.
#[tactic(auto, using(crate::proofs::Onward::whole_takes, crate::proofs::Onward::missing_takes))]
pub fn take_run_head<'a>(lines: &mut Lines<'a>) -> Result<u64, TraceFault>
    ensures { Takes (λ line. all_of (behind (codes "run") count line)) lines.old lines.new result }
{
    let line = lines.line()?;
    let mut cursor = Cursor::new(line);
    let count = run_count(&mut cursor);
    whole(count, &cursor, lines)
}

/// Takes the line of an event.
#[tactic(auto, using(crate::proofs::Onward::whole_takes, crate::proofs::Onward::missing_takes))]
pub fn take_moment<'a>(lines: &mut Lines<'a>, script: &Script) -> Result<Moment, TraceFault>
    ensures { Takes (λ line. all_of (events.moment script.now line)) lines.old lines.new result }
{
    let line = lines.line()?;
    let mut cursor = Cursor::new(line);
    let moment = event_line(&mut cursor, script);
    whole(moment, &cursor, lines)
}

fn behind_blanks<'a>(
    alloc: Global,
    cursor: &mut Cursor<'a>,
    script: &Script,
) -> Mem<Option<MarkLine>>
    ensures { IfOk result (λ read. IsRead read cursor.new (behind (codes "  ") (marks.mark_line script.now) cursor.old)) }
{
    match cursor.skip(b"  ") {
        Some(()) => mark_line(alloc, cursor, script),
        None => Ok(None),
    }
}

/// Takes the line of a mark.
#[tactic(auto, using(crate::proofs::Onward::whole_takes, crate::proofs::Onward::missing_takes))]
pub fn take_mark_line<'a>(
    alloc: Global,
    lines: &mut Lines<'a>,
    script: &Script,
) -> Result<MarkLine, TraceFault>
    ensures { Takes (λ line. all_of (behind (codes "  ") (marks.mark_line script.now) line)) lines.old lines.new result }
{
    let line = lines.line()?;
    let mut cursor = Cursor::new(line);
    let mark = behind_blanks(alloc, &mut cursor, script)?;
    whole(mark, &cursor, lines)
}
