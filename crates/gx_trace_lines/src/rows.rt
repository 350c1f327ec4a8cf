// The marks of rows.
ghost use Rattle.std.specs.Prelude.{IfOk};
ghost use Rattle.gx_trace.specs.Readers.{IsRead};
ghost use Rattle.gx_trace_lines.specs.Marks as of;

use crate::marks::MarkLine;
use gx_ids::{Cid, Gxid, Mem, Node, Rid, Table};
use gx_script::Script;
use gx_store::Mark;
use gx_trace::{Cursor, SeenMark};
use std::alloc::Global;

// A transaction and its command.
pub fn command<'a>(cursor: &mut Cursor<'a>) -> Option<(Gxid, Cid)>
    ensures { IsRead result cursor.new (of.command cursor.old) }
{
    let gxid = cursor.gxid()?;
    let cid = cursor.cid()?;
    Some((gxid, cid))
}

// A node, a table and a row of it.
fn spot<'a>(cursor: &mut Cursor<'a>, script: &Script) -> Option<(Node, (Table, Rid))>
    ensures { IsRead result cursor.new (of.spot script.now cursor.old) }
{
    let node = cursor.node()?;
    let table = cursor.table(script)?;
    let rid = cursor.rid()?;
    Some((node, (table, rid)))
}

fn command_at<'a>(
    cursor: &mut Cursor<'a>,
    script: &Script,
) -> Option<((Gxid, Cid), (Node, (Table, Rid)))>
    ensures { IsRead result cursor.new (of.command_at script.now cursor.old) }
{
    let command = command(cursor)?;
    let spot = spot(cursor, script)?;
    Some((command, spot))
}

fn command_on<'a>(cursor: &mut Cursor<'a>) -> Option<((Gxid, Cid), Rid)>
    ensures { IsRead result cursor.new (of.command_on cursor.old) }
{
    let command = command(cursor)?;
    let rid = cursor.rid()?;
    Some((command, rid))
}

pub fn write<'a>(alloc: Global, cursor: &mut Cursor<'a>, script: &Script) -> Mem<Option<MarkLine>>
    ensures { IfOk result (λ read. IsRead read cursor.new (of.write script.now cursor.old)) }
{
    let Some(((gxid, cid), (node, (table, rid)))) = command_at(cursor, script) else {
        return Ok(None);
    };
    match cursor.image(alloc)? {
        Some(image) => Ok(Some(MarkLine::Alone(SeenMark::Whole(Mark::Write {
            gxid,
            cid,
            node,
            table,
            rid,
            image,
        })))),
        None => Ok(None),
    }
}

pub fn skipped<'a>(cursor: &mut Cursor<'a>) -> Option<MarkLine>
    ensures { IsRead result cursor.new (of.skipped cursor.old) }
{
    let ((gxid, cid), rid) = command_on(cursor)?;
    Some(MarkLine::Alone(SeenMark::Whole(Mark::Skip { gxid, cid, rid })))
}

pub fn fault<'a>(alloc: Global, cursor: &mut Cursor<'a>) -> Mem<Option<MarkLine>>
    ensures { IfOk result (λ read. IsRead read cursor.new (of.fault cursor.old)) }
{
    let Some(((gxid, cid), rid)) = command_on(cursor) else {
        return Ok(None);
    };
    match cursor.image(alloc)? {
        Some(image) => Ok(Some(MarkLine::Alone(SeenMark::Whole(Mark::Fault {
            gxid,
            cid,
            rid,
            image,
        })))),
        None => Ok(None),
    }
}
