// The text of a message in a trace.
ghost use Rattle.std.specs.Prelude.{◌≡◌, ◌++◌, OnOk, IfOk};
ghost use Rattle.gx_msg.specs.MessageText.{text_of_message, text_of_reply, named, named_command};

use crate::message::Message;
use crate::reply::Reply;
use gx_ids::{Cid, Gxid, Mem};
use gx_text::{push_bytes, push_count};
use std::alloc::Global;

// Adds a name and its number.
fn push_named(text: &mut Vec<u8>, name: &[u8], number: u64) -> Mem<()>
    ensures { OnOk result (text.new.items ≡ text.old.items ++ named name.now number) }
{
    push_bytes(text, name)?;
    push_bytes(text, b" ")?;
    push_count(text, u128::from(number))
}

// Adds a name, its transaction and its command.
fn push_command(text: &mut Vec<u8>, name: &[u8], gxid: Gxid, cid: Cid) -> Mem<()>
    ensures { OnOk result (text.new.items ≡ text.old.items ++ named_command name.now gxid cid) }
{
    push_named(text, name, gxid.0)?;
    push_bytes(text, b" ")?;
    push_count(text, u128::from(cid.0))
}

fn push_reply(text: &mut Vec<u8>, gxid: Gxid, reply: &Reply) -> Mem<()>
    ensures { OnOk result (text.new.items ≡ text.old.items ++ text_of_reply gxid reply.now) }
{
    match reply {
        Reply::Done { cid, .. } => push_command(text, b"done", gxid, *cid),
        Reply::Failed { cid, .. } => push_command(text, b"failed", gxid, *cid),
        Reply::Prepared => push_named(text, b"prepared", gxid.0),
        Reply::Committed => push_named(text, b"committed", gxid.0),
        Reply::Jfault => push_named(text, b"jfault", gxid.0),
        Reply::Again => push_named(text, b"again", gxid.0),
        Reply::Aborted => push_named(text, b"aborted", gxid.0),
        Reply::Forgotten => push_named(text, b"forgotten", gxid.0),
        Reply::Restarted => push_named(text, b"restarted", gxid.0),
    }
}

fn push_message(text: &mut Vec<u8>, message: &Message) -> Mem<()>
    ensures { OnOk result (text.new.items ≡ text.old.items ++ text_of_message message.now) }
{
    match message {
        Message::Exec { gxid, cid, .. } => push_command(text, b"exec", *gxid, *cid),
        Message::Prepare(gxid) => push_named(text, b"prepare", gxid.0),
        Message::Commit(gxid) => push_named(text, b"commit", gxid.0),
        Message::CommitPrepared(gxid) => push_named(text, b"commit prepared", gxid.0),
        Message::Abort(gxid) => push_named(text, b"abort", gxid.0),
        Message::Forget(gxid) => push_named(text, b"forget", gxid.0),
        Message::Collect(round) => push_named(text, b"collect", *round),
        Message::Answer(gxid, reply) => push_reply(text, *gxid, reply),
        Message::Graph(round, _) => push_named(text, b"graph", *round),
        Message::Up => push_bytes(text, b"up"),
    }
}

/// The text of a message in a trace: its name, and its transaction (with the command, where it has one) or its round, if it has
/// one.
pub fn message_text(alloc: Global, message: &Message) -> Mem<Vec<u8>>
    ensures { IfOk result (λ text. text.items ≡ text_of_message message.now) }
{
    let mut text = Vec::new(alloc);
    push_message(&mut text, message)?;
    Ok(text)
}
