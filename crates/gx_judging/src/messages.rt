// A message by its name and its numbers, with what else is asked of it.
ghost use Rattle.std.specs.Prelude.{◌≡◌, IfOk, codes, unwrap_or};
ghost use Rattle.std.specs.Option.{option_map};
ghost use Rattle.gx_judging.specs.Answers.{cause_at};
ghost use Rattle.gx_judging.specs.Filled.{all_of, done_of, failed_of, fault_of, message_of as filled_message, other as plain};
ghost use Rattle.gx_trace.specs.Readers.{IsRead};
ghost use Rattle.gx_trace_lines.specs.Messages.{commanded, numbered};

use crate::causes::Causes;
use gx_ids::{Cid, Gxid, Mem, Seq, Shared};
use gx_msg::{Cause, Message, Reply};
use gx_trace::Cursor;
use gx_tree::Part;
use std::alloc::Global;

// Goes behind a name, a transaction and a command.
fn go_command<'a>(cursor: &mut Cursor<'a>, name: &[u8]) -> Option<(Gxid, Cid)>
    ensures { IsRead result cursor.new (commanded name.now cursor.old) }
{
    cursor.skip(name)?;
    let gxid = cursor.gxid()?;
    let cid = cursor.cid()?;
    Some((gxid, cid))
}

// Goes behind a name and a number.
fn go_number<'a>(cursor: &mut Cursor<'a>, name: &[u8]) -> Option<u64>
    ensures { IsRead result cursor.new (numbered name.now cursor.old) }
{
    cursor.skip(name)?;
    cursor.count()
}

fn command_in(text: &[u8], name: &[u8]) -> Option<(Gxid, Cid)>
    ensures { result ≡ all_of (commanded name.now text.now) }
{
    let mut cursor = Cursor::new(text);
    match go_command(&mut cursor, name) {
        Some(command) if cursor.is_at_end() => Some(command),
        _ => None,
    }
}

fn number_in(text: &[u8], name: &[u8]) -> Option<u64>
    ensures { result ≡ all_of (numbered name.now text.now) }
{
    let mut cursor = Cursor::new(text);
    match go_number(&mut cursor, name) {
        Some(number) if cursor.is_at_end() => Some(number),
        _ => None,
    }
}

fn done(alloc: Global, command: (Gxid, Cid)) -> Mem<Message>
    ensures { IfOk result (λ message. message ≡ done_of command) }
{
    let part = Shared::new(alloc, Part::Rows(Seq::new(alloc)))?;
    Ok(Message::Answer(
        command.0,
        Reply::Done {
            cid: command.1,
            wrote: false,
            count: 0,
            part,
        },
    ))
}

fn failed(alloc: Global, causes: &Causes, command: (Gxid, Cid)) -> Mem<Message>
    ensures { IfOk result (λ message. message ≡ failed_of (cause_at causes.now) command) }
{
    let cause = match causes.cause(command.0) {
        Some(cause) => cause,
        None => Cause::Overflow,
    };
    let cause = Shared::new(alloc, cause)?;
    Ok(Message::Answer(
        command.0,
        Reply::Failed {
            cid: command.1,
            cause,
        },
    ))
}

// A message that is neither DONE nor FAILED.
fn other(text: &[u8]) -> Message
    ensures { result ≡ unwrap_or (option_map fault_of (all_of (numbered (codes "jfault") text.now))) plain }
{
    match number_in(text, b"jfault") {
        Some(number) => Message::Answer(Gxid(number), Reply::Jfault),
        None => Message::Collect(0),
    }
}

/// The message.
pub fn message_of(alloc: Global, causes: &Causes, text: &[u8]) -> Mem<Message>
    ensures { IfOk result (λ message. message ≡ filled_message (cause_at causes.now) text.now) }
{
    if let Some(command) = command_in(text, b"done") {
        return done(alloc, command);
    }
    if let Some(command) = command_in(text, b"failed") {
        return failed(alloc, causes, command);
    }
    Ok(other(text))
}
