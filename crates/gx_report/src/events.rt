// The text of an event.
ghost use Rattle.std.specs.Prelude.{◌≡◌, ◌++◌, OnOk};
ghost use Rattle.gx_report.specs.EventText.{event_text};
ghost use Rattle.gx_store.specs.declared.event.Event.TheVariants.{Resend};

use crate::words::{push_at_node, push_at_session, push_words};
use gx_ids::{Gxid, Mem, Node};
use gx_script::Script;
use gx_store::Event;
use gx_text::push_bytes;

fn push_resend(text: &mut Vec<u8>, script: &Script, segment: Node, gxid: Option<Gxid>) -> Mem<()>
    ensures { OnOk result (text.new.items ≡ text.old.items ++ event_text script.now (Resend segment gxid)) }
{
    match gxid {
        Some(gxid) => push_at_node(text, b"resend", segment, gxid),
        None => {
            push_words(text, b"resend", &[u64::from(segment.0)])?;
            push_bytes(text, b" round")
        }
    }
}

pub fn push_event(text: &mut Vec<u8>, script: &Script, event: Event) -> Mem<()>
    ensures { OnOk result (text.new.items ≡ text.old.items ++ event_text script.now event) }
{
    match event {
        Event::Receive { from, to, number } => push_words(
            text,
            b"recv",
            &[u64::from(from.0), u64::from(to.0), number],
        ),
        Event::Resume { node, gxid } => { push_at_node(text, b"resume", node, gxid) }
        Event::Start(session) => push_at_session(text, script, b"start", session),
        Event::End(session) => push_at_session(text, script, b"end", session),
        Event::Resend { segment, gxid } => push_resend(text, script, segment, gxid),
        Event::Round => push_bytes(text, b"round"),
        Event::Restart(segment) => push_words(text, b"restart", &[u64::from(segment.0)]),
    }
}
