// The line of an answer.
ghost use Rattle.std.specs.Prelude.{ℕ, ◌^◌, ◌<◌, List};
ghost use Rattle.gx_trace.specs.Readers.{IsEnd, IsRead, IsReaderOf};
ghost use Rattle.gx_trace_lines.specs.Answers as line;
ghost use Rattle.gx_trace_lines.specs.Heads as of;

use crate::choices::skips;
use crate::refusals::refusal;
use gx_store::StmtAnswer;
use gx_trace::Cursor;

/// What the line of an answer says: the whole answer, or how many rows stand on the lines below it.
#[derive(Drop)]
pub enum AnswerHead {
    Said(StmtAnswer),
    Rows(u64),
}

fn inserted<'a>(cursor: &mut Cursor<'a>) -> Option<AnswerHead>
    ensures { IsRead result cursor.new (of.counted of.inserted_of cursor.old) }
{
    let count = cursor.count()?;
    Some(AnswerHead::Said(StmtAnswer::Inserted(u128::from(count))))
}

fn updated<'a>(cursor: &mut Cursor<'a>) -> Option<AnswerHead>
    ensures { IsRead result cursor.new (of.counted of.updated_of cursor.old) }
{
    let count = cursor.count()?;
    Some(AnswerHead::Said(StmtAnswer::Updated(u128::from(count))))
}

fn deleted<'a>(cursor: &mut Cursor<'a>) -> Option<AnswerHead>
    ensures { IsRead result cursor.new (of.counted of.deleted_of cursor.old) }
{
    let count = cursor.count()?;
    Some(AnswerHead::Said(StmtAnswer::Deleted(u128::from(count))))
}

fn rows<'a>(cursor: &mut Cursor<'a>) -> Option<AnswerHead>
    ensures { IsRead result cursor.new (of.counted of.rows_of cursor.old) }
{
    let count = cursor.count()?;
    Some(AnswerHead::Rows(count))
}

fn refused<'a>(cursor: &mut Cursor<'a>) -> Option<AnswerHead>
    ensures { IsRead result cursor.new (of.refused_head cursor.old) }
{
    let why = refusal(cursor)?;
    Some(AnswerHead::Said(StmtAnswer::Refused(why)))
}

// The line of a statement on tables, or of one that was refused.
fn statement_head<'a>(cursor: &mut Cursor<'a>) -> Option<AnswerHead>
    ensures { IsRead result cursor.new (of.statement_head cursor.old) }
{
    if skips(cursor, b"INSERT") {
        inserted(cursor)
    } else if skips(cursor, b"UPDATE") {
        updated(cursor)
    } else if skips(cursor, b"DELETE") {
        deleted(cursor)
    } else if skips(cursor, b"SELECT") {
        rows(cursor)
    } else {
        refused(cursor)
    }
}

fn head<'a>(cursor: &mut Cursor<'a>) -> Option<AnswerHead>
    ensures { IsRead result cursor.new (of.head cursor.old) }
{
    if skips(cursor, b"BEGIN") {
        Some(AnswerHead::Said(StmtAnswer::Begin))
    } else if skips(cursor, b"COMMIT") {
        Some(AnswerHead::Said(StmtAnswer::Commit))
    } else if skips(cursor, b"ROLLBACK") {
        Some(AnswerHead::Said(StmtAnswer::Rollback))
    } else if skips(cursor, b"LOCK TABLE") {
        Some(AnswerHead::Said(StmtAnswer::Locked))
    } else {
        statement_head(cursor)
    }
}

fn exactly<'a>(cursor: &mut Cursor<'a>, number: u32) -> Option<()>
    ensures { IsRead result cursor.new (line.exactly number cursor.old) }
{
    let found = cursor.medium()?;
    if found == number { Some(()) } else { None }
}

/// Reads the first line of the answer to the line of this number of the session of this name.
pub fn answer_head<'a>(cursor: &mut Cursor<'a>, name: &[u8], number: u32) -> Option<AnswerHead>
    ensures { IsRead result cursor.new (line.answer_head name.now number cursor.old) }
{
    cursor.skip(name)?;
    cursor.skip(b".")?;
    exactly(cursor, number)?;
    cursor.skip(b" ")?;
    head(cursor)
}

/// The first lines of answers are read as they are printed.
pub fn heads_are_read()
    ensures { (name : List ℕ) (number : ℕ) → number < 2 ^ 32 → IsReaderOf (line.answer_head_text name number) of.IsHead IsEnd (line.answer_head name number) }
{}
