// The text of a mark.
ghost use Rattle.std.specs.Prelude.{◌≡◌, ◌++◌, OnOk};
ghost use Rattle.gx_msg.specs.MessageText.{text_of_message};
ghost use Rattle.gx_report.specs.MarkText as of;
ghost use Rattle.gx_report.specs.Words.{word_text};

use crate::locks::{push_lock, push_recheck, push_report};
use crate::rows::push_image;
use crate::words::{
    push_at_node, push_at_session, push_count_behind, push_gxids, push_rid, push_session,
    push_table, push_word, push_words,
};
use gx_dsnap::Snapshot;
use gx_ids::{Cid, Gxid, Mem, SessionId};
use gx_msg::{Message, message_text};
use gx_script::Script;
use gx_store::Mark;
use gx_text::push_bytes;
use std::alloc::Global;

fn push_snap(text: &mut Vec<u8>, gxid: Gxid, cid: Cid, snapshot: &Snapshot) -> Mem<()>
    ensures { OnOk result (text.new.items ≡ text.old.items ++ of.snap_text gxid cid snapshot.now) }
{
    push_words(text, b"snap", &[gxid.0, u64::from(cid.0)])?;
    push_words(text, b" xmin", &[snapshot.xmin.0])?;
    push_words(text, b" xmax", &[snapshot.xmax.0])?;
    push_bytes(text, b" running")?;
    push_gxids(text, snapshot.running.get().as_slice())
}

fn push_answered(text: &mut Vec<u8>, script: &Script, session: SessionId, number: u32) -> Mem<()>
    ensures { OnOk result (text.new.items ≡ text.old.items ++ of.answered_text script.now session number) }
{
    push_at_session(text, script, b"answer", session)?;
    push_count_behind(text, b".", u128::from(number))
}

fn push_begin(text: &mut Vec<u8>, script: &Script, gxid: Gxid, session: SessionId) -> Mem<()>
    ensures { OnOk result (text.new.items ≡ text.old.items ++ of.begin_text script.now gxid session) }
{
    push_words(text, b"begin", &[gxid.0])?;
    push_session(text, script, session)
}

fn push_message(alloc: Global, text: &mut Vec<u8>, message: &Message) -> Mem<()>
    ensures { OnOk result (text.new.items ≡ text.old.items ++ word_text (text_of_message message.now)) }
{
    let name = message_text(alloc, message)?;
    push_word(text, name.as_slice())
}

fn push_lock_mark(alloc: Global, text: &mut Vec<u8>, script: &Script, mark: &Mark) -> Mem<()>
    ensures { OnOk result (text.new.items ≡ text.old.items ++ of.lock_mark_text script.now mark.now) }
{
    match mark {
        Mark::Hold {
            node,
            gxid,
            object,
            mode,
        } => {
            push_at_node(text, b"hold", *node, *gxid)?;
            push_lock(alloc, text, script, *object, *mode)
        }
        Mark::Wait {
            node,
            gxid,
            object,
            mode,
        } => {
            push_at_node(text, b"wait", *node, *gxid)?;
            push_lock(alloc, text, script, *object, *mode)
        }
        Mark::Release {
            node,
            gxid,
            object,
            mode,
        } => {
            push_at_node(text, b"release", *node, *gxid)?;
            push_lock(alloc, text, script, *object, *mode)
        }
        Mark::Report { node, round, graph } => push_report(alloc, text, *node, *round, graph),
        Mark::Recheck {
            round,
            own,
            verdict,
        } => push_recheck(alloc, text, *round, own.get(), verdict),
        _ => Ok(()),
    }
}

fn push_row_mark(alloc: Global, text: &mut Vec<u8>, script: &Script, mark: &Mark) -> Mem<()>
    ensures { OnOk result (text.new.items ≡ text.old.items ++ of.row_mark_text script.now mark.now) }
{
    match mark {
        Mark::Write {
            gxid,
            cid,
            node,
            table,
            rid,
            image,
        } => {
            push_words(
                text,
                b"write",
                &[gxid.0, u64::from(cid.0), u64::from(node.0)],
            )?;
            push_table(text, script, *table)?;
            push_image(alloc, text, *rid, image)
        }
        Mark::Skip { gxid, cid, rid } => {
            push_words(text, b"skip", &[gxid.0, u64::from(cid.0)])?;
            push_rid(alloc, text, *rid)
        }
        Mark::Fault {
            gxid,
            cid,
            rid,
            image,
        } => {
            push_words(text, b"fault", &[gxid.0, u64::from(cid.0)])?;
            push_image(alloc, text, *rid, image)
        }
        _ => push_lock_mark(alloc, text, script, mark),
    }
}

/// Adds a mark, without the blanks before it and the line's end.
pub fn push_mark(alloc: Global, text: &mut Vec<u8>, script: &Script, mark: &Mark) -> Mem<()>
    ensures { OnOk result (text.new.items ≡ text.old.items ++ of.mark_text script.now mark.now) }
{
    match mark {
        Mark::Start { gxid, session } => push_begin(text, script, *gxid, *session),
        Mark::Snap {
            gxid,
            cid,
            snapshot,
        } => push_snap(text, *gxid, *cid, snapshot),
        Mark::Answer {
            session,
            number,
            ..
        } => push_answered(text, script, *session, *number),
        Mark::Sent {
            to,
            number,
            message,
        } => {
            push_words(text, b"send", &[u64::from(to.0), *number])?;
            push_message(alloc, text, message)
        }
        Mark::Prepared { node, gxid } => push_at_node(text, b"prepared", *node, *gxid),
        Mark::Decided { gxid } => push_words(text, b"decided", &[gxid.0]),
        Mark::LocalCommit { node, gxid } => push_at_node(text, b"local", *node, *gxid),
        Mark::Commit { gxid } => push_words(text, b"commit", &[gxid.0]),
        Mark::Abort { gxid } => push_words(text, b"abort", &[gxid.0]),
        Mark::JournalFailed { node, gxid } => push_at_node(text, b"journal", *node, *gxid),
        Mark::Restart { node } => push_words(text, b"restart", &[u64::from(node.0)]),
        _ => push_row_mark(alloc, text, script, mark),
    }
}
