// The line of an event.
ghost use Rattle.gx_script.specs.declared.Script.{Script as AnyScript};
ghost use Rattle.gx_trace.specs.Readers.{IsEnd, IsRead, IsReaderOf};
ghost use Rattle.gx_trace_lines.specs.Events as of;

use crate::choices::skips;
use gx_ids::{Gxid, Node, Stamp};
use gx_script::Script;
use gx_store::Event;
use gx_trace::Cursor;

/// When and where something happened, and what.
#[derive(Clone, Copy)]
pub struct Moment {
    pub stamp: Stamp,
    pub event: Event,
}

fn receive<'a>(cursor: &mut Cursor<'a>) -> Option<Event>
    ensures { IsRead result cursor.new (of.receive cursor.old) }
{
    let from = cursor.node()?;
    let to = cursor.node()?;
    let number = cursor.count()?;
    Some(Event::Receive { from, to, number })
}

fn resume<'a>(cursor: &mut Cursor<'a>) -> Option<Event>
    ensures { IsRead result cursor.new (of.resume cursor.old) }
{
    let node = cursor.node()?;
    let gxid = cursor.gxid()?;
    Some(Event::Resume { node, gxid })
}

fn started<'a>(cursor: &mut Cursor<'a>, script: &Script) -> Option<Event>
    ensures { IsRead result cursor.new (of.started script.now cursor.old) }
{
    let session = cursor.session(script)?;
    Some(Event::Start(session))
}

fn ended<'a>(cursor: &mut Cursor<'a>, script: &Script) -> Option<Event>
    ensures { IsRead result cursor.new (of.ended script.now cursor.old) }
{
    let session = cursor.session(script)?;
    Some(Event::End(session))
}

// The transaction, or none for the detector's round.
fn whose<'a>(cursor: &mut Cursor<'a>) -> Option<Option<Gxid>>
    ensures { IsRead result cursor.new (of.whose cursor.old) }
{
    if skips(cursor, b" round") {
        Some(None)
    } else {
        let gxid = cursor.gxid()?;
        Some(Some(gxid))
    }
}

fn resend<'a>(cursor: &mut Cursor<'a>) -> Option<Event>
    ensures { IsRead result cursor.new (of.resend cursor.old) }
{
    let segment = cursor.node()?;
    let gxid = whose(cursor)?;
    Some(Event::Resend { segment, gxid })
}

fn restart<'a>(cursor: &mut Cursor<'a>) -> Option<Event>
    ensures { IsRead result cursor.new (of.restart cursor.old) }
{
    let segment = cursor.node()?;
    Some(Event::Restart(segment))
}

fn event<'a>(cursor: &mut Cursor<'a>, script: &Script) -> Option<Event>
    ensures { IsRead result cursor.new (of.event_at script.now cursor.old) }
{
    if skips(cursor, b" recv") {
        receive(cursor)
    } else if skips(cursor, b" resume") {
        resume(cursor)
    } else if skips(cursor, b" start") {
        started(cursor, script)
    } else if skips(cursor, b" end") {
        ended(cursor, script)
    } else if skips(cursor, b" resend") {
        resend(cursor)
    } else if skips(cursor, b" round") {
        Some(Event::Round)
    } else if skips(cursor, b" restart") {
        restart(cursor)
    } else {
        None
    }
}

fn stamp<'a>(cursor: &mut Cursor<'a>) -> Option<Stamp>
    ensures { IsRead result cursor.new (of.stamp cursor.old) }
{
    let clock = cursor.wide()?;
    cursor.skip(b".")?;
    let node = cursor.small()?;
    Some(Stamp {
        clock,
        node: Node(node),
    })
}

/// Reads the line of an event.
pub fn event_line<'a>(cursor: &mut Cursor<'a>, script: &Script) -> Option<Moment>
    ensures { IsRead result cursor.new (of.moment script.now cursor.old) }
{
    let stamp = stamp(cursor)?;
    let event = event(cursor, script)?;
    Some(Moment { stamp, event })
}

/// The lines of events are read as they are printed.
pub fn moments_are_read()
    ensures { (script : AnyScript) → IsReaderOf (of.moment_text script) (of.IsMoment script) IsEnd (of.moment script) }
{}
