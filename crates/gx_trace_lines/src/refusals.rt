// Why a statement was refused.
ghost use Rattle.gx_trace.specs.Readers.{IsRead};
ghost use Rattle.gx_trace_lines.specs.Heads as of;

use crate::choices::skips;
use gx_store::Refused;
use gx_trace::Cursor;

fn serialization<'a>(cursor: &mut Cursor<'a>) -> Option<Refused>
    ensures { IsRead result cursor.new (of.serialization cursor.old) }
{
    let rid = cursor.rid()?;
    cursor.skip(b" changed by")?;
    let newer = cursor.gxid()?;
    Some(Refused::Serialization(rid, newer))
}

fn victim<'a>(cursor: &mut Cursor<'a>) -> Option<Refused>
    ensures { IsRead result cursor.new (of.victim cursor.old) }
{
    let round = cursor.count()?;
    Some(Refused::Victim(round))
}

fn journal<'a>(cursor: &mut Cursor<'a>) -> Option<Refused>
    ensures { IsRead result cursor.new (of.journal cursor.old) }
{
    let node = cursor.node()?;
    cursor.skip(b" failed")?;
    Some(Refused::JournalFault(node))
}

fn restarted<'a>(cursor: &mut Cursor<'a>) -> Option<Refused>
    ensures { IsRead result cursor.new (of.restarted cursor.old) }
{
    let segment = cursor.node()?;
    cursor.skip(b" restarted")?;
    Some(Refused::Restarted(segment))
}

// Reads why a statement was refused.
pub fn refusal<'a>(cursor: &mut Cursor<'a>) -> Option<Refused>
    ensures { IsRead result cursor.new (of.refusal cursor.old) }
{
    if skips(cursor, b"ERROR 1 serialization row") {
        serialization(cursor)
    } else if skips(cursor, b"ERROR 2 victim of round") {
        victim(cursor)
    } else if skips(cursor, b"ERROR 3 overflow") {
        Some(Refused::Overflow)
    } else if skips(cursor, b"ERROR 4 division by zero") {
        Some(Refused::DivisionByZero)
    } else if skips(cursor, b"ERROR 5 block has failed") {
        Some(Refused::InFailedBlock)
    } else if skips(cursor, b"ERROR 6 journal of node") {
        journal(cursor)
    } else if skips(cursor, b"ERROR 7 not in a block") {
        Some(Refused::NotInBlock)
    } else if skips(cursor, b"ERROR 8 segment") {
        restarted(cursor)
    } else {
        None
    }
}
