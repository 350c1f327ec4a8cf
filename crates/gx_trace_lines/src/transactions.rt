// The marks of transactions, and that of a restart.
ghost use Rattle.std.specs.Prelude.{IfOk};
ghost use Rattle.gx_trace.specs.Readers.{IsRead};
ghost use Rattle.gx_trace_lines.specs.Marks as of;

use crate::marks::MarkLine;
use crate::messages::message;
use gx_ids::{Gxid, Mem, Node};
use gx_script::Script;
use gx_store::Mark;
use gx_trace::{Cursor, SeenMark};
use std::alloc::Global;

pub fn begin<'a>(cursor: &mut Cursor<'a>, script: &Script) -> Option<MarkLine>
    ensures { IsRead result cursor.new (of.begin script.now cursor.old) }
{
    let gxid = cursor.gxid()?;
    let session = cursor.session(script)?;
    Some(MarkLine::Alone(SeenMark::Whole(Mark::Start { gxid, session })))
}

pub fn commit<'a>(cursor: &mut Cursor<'a>) -> Option<MarkLine>
    ensures { IsRead result cursor.new (of.of_gxid of.commit_of cursor.old) }
{
    let gxid = cursor.gxid()?;
    Some(MarkLine::Alone(SeenMark::Whole(Mark::Commit { gxid })))
}

pub fn abort<'a>(cursor: &mut Cursor<'a>) -> Option<MarkLine>
    ensures { IsRead result cursor.new (of.of_gxid of.abort_of cursor.old) }
{
    let gxid = cursor.gxid()?;
    Some(MarkLine::Alone(SeenMark::Whole(Mark::Abort { gxid })))
}

pub fn decided<'a>(cursor: &mut Cursor<'a>) -> Option<MarkLine>
    ensures { IsRead result cursor.new (of.of_gxid of.decided_of cursor.old) }
{
    let gxid = cursor.gxid()?;
    Some(MarkLine::Alone(SeenMark::Whole(Mark::Decided { gxid })))
}

fn node_and_gxid<'a>(cursor: &mut Cursor<'a>) -> Option<(Node, Gxid)>
    ensures { IsRead result cursor.new (of.node_and_gxid cursor.old) }
{
    let node = cursor.node()?;
    let gxid = cursor.gxid()?;
    Some((node, gxid))
}

pub fn prepared<'a>(cursor: &mut Cursor<'a>) -> Option<MarkLine>
    ensures { IsRead result cursor.new (of.at_node of.prepared_of cursor.old) }
{
    let (node, gxid) = node_and_gxid(cursor)?;
    Some(MarkLine::Alone(SeenMark::Whole(Mark::Prepared { node, gxid })))
}

pub fn local<'a>(cursor: &mut Cursor<'a>) -> Option<MarkLine>
    ensures { IsRead result cursor.new (of.at_node of.local_of cursor.old) }
{
    let (node, gxid) = node_and_gxid(cursor)?;
    Some(MarkLine::Alone(SeenMark::Whole(Mark::LocalCommit { node, gxid })))
}

pub fn journal<'a>(cursor: &mut Cursor<'a>) -> Option<MarkLine>
    ensures { IsRead result cursor.new (of.at_node of.journal_of cursor.old) }
{
    let (node, gxid) = node_and_gxid(cursor)?;
    Some(MarkLine::Alone(SeenMark::Whole(Mark::JournalFailed { node, gxid })))
}

pub fn restarted<'a>(cursor: &mut Cursor<'a>) -> Option<MarkLine>
    ensures { IsRead result cursor.new (of.restarted cursor.old) }
{
    let node = cursor.node()?;
    Some(MarkLine::Alone(SeenMark::Whole(Mark::Restart { node })))
}

pub fn answered<'a>(cursor: &mut Cursor<'a>, script: &Script) -> Option<MarkLine>
    ensures { IsRead result cursor.new (of.answered script.now cursor.old) }
{
    let session = cursor.session(script)?;
    let number = cursor.dotted()?;
    Some(MarkLine::Alone(SeenMark::Answer { session, number }))
}

fn addressed<'a>(cursor: &mut Cursor<'a>) -> Option<(Node, u64)>
    ensures { IsRead result cursor.new (of.addressed cursor.old) }
{
    let to = cursor.node()?;
    let number = cursor.count()?;
    Some((to, number))
}

pub fn sent<'a>(alloc: Global, cursor: &mut Cursor<'a>) -> Mem<Option<MarkLine>>
    ensures { IfOk result (λ read. IsRead read cursor.new (of.sent cursor.old)) }
{
    let Some((to, number)) = addressed(cursor) else {
        return Ok(None);
    };
    match message(alloc, cursor)? {
        Some(message) => Ok(Some(MarkLine::Alone(SeenMark::Sent {
            to,
            number,
            message,
        }))),
        None => Ok(None),
    }
}
