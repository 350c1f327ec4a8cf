// The name and the numbers of a message.
ghost use Rattle.std.specs.Prelude.{◌≡◌, IfOk};
ghost use Rattle.gx_report.specs.Words.{word_text};
ghost use Rattle.gx_trace.specs.Lawful.{IsMessageText};
ghost use Rattle.gx_trace.specs.Readers.{IsEnd, IsRead, IsReaderOf};
ghost use Rattle.gx_trace_lines.specs.Messages as of;

use gx_ids::{Cid, Gxid, Mem};
use gx_text::push_bytes;
use gx_trace::Cursor;
use gx_tree::Txt;
use std::alloc::Global;

// Goes behind a name and a number.
fn numbered<'a>(cursor: &mut Cursor<'a>, name: &[u8]) -> Option<u64>
    ensures { IsRead result cursor.new (of.numbered name.now cursor.old) }
{
    cursor.skip(name)?;
    cursor.count()
}

// Goes behind a name, a transaction and a command.
fn of_command<'a>(cursor: &mut Cursor<'a>, name: &[u8]) -> Option<(Gxid, Cid)>
    ensures { IsRead result cursor.new (of.commanded name.now cursor.old) }
{
    cursor.skip(name)?;
    let gxid = cursor.gxid()?;
    let cid = cursor.cid()?;
    Some((gxid, cid))
}

fn is_numbered(words: &[u8], name: &[u8]) -> bool
    ensures { result ≡ of.is_numbered name.now words.now }
{
    let mut cursor = Cursor::new(words);
    match numbered(&mut cursor, name) {
        Some(_number) => cursor.is_at_end(),
        None => false,
    }
}

fn is_of_command(words: &[u8], name: &[u8]) -> bool
    ensures { result ≡ of.is_of_command name.now words.now }
{
    let mut cursor = Cursor::new(words);
    match of_command(&mut cursor, name) {
        Some(_command) => cursor.is_at_end(),
        None => false,
    }
}

fn is_of_slice(words: &[u8]) -> bool
    ensures { result ≡ of.is_of_slice words.now }
{
    is_of_command(words, b"exec")
        || is_of_command(words, b"done")
        || is_of_command(words, b"failed")
}

fn is_request(words: &[u8]) -> bool
    ensures { result ≡ of.is_request words.now }
{
    is_numbered(words, b"prepare")
        || is_numbered(words, b"commit")
        || is_numbered(words, b"commit prepared")
        || is_numbered(words, b"abort")
        || is_numbered(words, b"forget")
        || is_numbered(words, b"collect")
}

fn is_reply(words: &[u8]) -> bool
    ensures { result ≡ of.is_reply words.now }
{
    is_numbered(words, b"prepared")
        || is_numbered(words, b"committed")
        || is_numbered(words, b"jfault")
        || is_numbered(words, b"again")
        || is_numbered(words, b"aborted")
        || is_numbered(words, b"forgotten")
        || is_numbered(words, b"graph")
}

fn is_up(words: &[u8]) -> bool
    ensures { result ≡ of.is_up words.now }
{
    let mut cursor = Cursor::new(words);
    match cursor.skip(b"up") {
        Some(()) => cursor.is_at_end(),
        None => false,
    }
}

fn is_of_restart(words: &[u8]) -> bool
    ensures { result ≡ of.is_of_restart words.now }
{
    is_numbered(words, b"restarted") || is_up(words)
}

fn is_message(words: &[u8]) -> bool
    ensures { result ≡ of.is_message words.now }
{
    is_of_slice(words) || is_request(words) || is_reply(words) || is_of_restart(words)
}

fn words<'a>(alloc: Global, cursor: &mut Cursor<'a>) -> Mem<Option<Txt>>
    ensures { IfOk result (λ read. IsRead read cursor.new (of.message_words cursor.old)) }
{
    let left = cursor.left();
    if !is_message(left) {
        return Ok(None);
    }
    let mut text = Vec::new(alloc);
    push_bytes(&mut text, left)?;
    cursor.go_to(&left[left.len()..]);
    Ok(Some(Txt::from_vec(text)))
}

/// Reads a message's name and numbers, behind a blank and to the end.
pub fn message<'a>(alloc: Global, cursor: &mut Cursor<'a>) -> Mem<Option<Txt>>
    ensures { IfOk result (λ read. IsRead read cursor.new (of.message cursor.old)) }
{
    match cursor.skip(b" ") {
        Some(()) => words(alloc, cursor),
        None => Ok(None),
    }
}

/// Messages are read as they are printed.
pub fn messages_are_read()
    ensures { IsReaderOf word_text IsMessageText IsEnd of.message }
{}
