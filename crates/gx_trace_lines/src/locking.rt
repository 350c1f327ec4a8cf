// The marks of locks.
ghost use Rattle.gx_trace.specs.Readers.{IsRead};
ghost use Rattle.gx_trace_lines.specs.Marks as of;

use crate::marks::MarkLine;
use gx_ids::{Gxid, Node};
use gx_modes::Mode;
use gx_script::Script;
use gx_store::Mark;
use gx_trace::{Cursor, SeenMark};
use gx_waits::Object;

// A node and a transaction, an object and a mode.
fn locked<'a>(cursor: &mut Cursor<'a>, script: &Script) -> Option<(Node, (Gxid, (Object, Mode)))>
    ensures { IsRead result cursor.new (of.locked script.now cursor.old) }
{
    let node = cursor.node()?;
    let gxid = cursor.gxid()?;
    let object = cursor.object(script)?;
    let mode = cursor.mode()?;
    Some((node, (gxid, (object, mode))))
}

pub fn hold<'a>(cursor: &mut Cursor<'a>, script: &Script) -> Option<MarkLine>
    ensures { IsRead result cursor.new (of.lock script.now of.hold_of cursor.old) }
{
    let (node, (gxid, (object, mode))) = locked(cursor, script)?;
    Some(MarkLine::Alone(SeenMark::Whole(Mark::Hold {
        node,
        gxid,
        object,
        mode,
    })))
}

pub fn wait<'a>(cursor: &mut Cursor<'a>, script: &Script) -> Option<MarkLine>
    ensures { IsRead result cursor.new (of.lock script.now of.wait_of cursor.old) }
{
    let (node, (gxid, (object, mode))) = locked(cursor, script)?;
    Some(MarkLine::Alone(SeenMark::Whole(Mark::Wait {
        node,
        gxid,
        object,
        mode,
    })))
}

pub fn release<'a>(cursor: &mut Cursor<'a>, script: &Script) -> Option<MarkLine>
    ensures { IsRead result cursor.new (of.lock script.now of.release_of cursor.old) }
{
    let (node, (gxid, (object, mode))) = locked(cursor, script)?;
    Some(MarkLine::Alone(SeenMark::Whole(Mark::Release {
        node,
        gxid,
        object,
        mode,
    })))
}
