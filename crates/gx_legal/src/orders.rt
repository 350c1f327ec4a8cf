// Whether a command was sent.
ghost use Rattle.std.specs.Prelude.{◌≡◌, ◌∷◌, []};
ghost use Rattle.gx_store.specs.Marks.{is_order_of as orders, is_sent as was_sent};

use gx_ids::{Cid, Gxid};
use gx_msg::Message;
use gx_store::Mark;

/// Whether the command was sent to some segment.
pub(crate) fn is_sent(marks: &[Mark], gxid: Gxid, cid: Cid) -> bool
    ensures { result ≡ was_sent marks.now gxid cid }
{
    for mark in marks {
        if sends(mark, gxid, cid) {
            return true;
        }
    }
    false
}

fn sends(mark: &Mark, gxid: Gxid, cid: Cid) -> bool
    ensures { result ≡ was_sent (mark.now ∷ []) gxid cid }
{
    match mark {
        Mark::Sent { message, .. } => is_order_of(message, gxid, cid),
        _ => false,
    }
}

fn is_order_of(message: &Message, gxid: Gxid, cid: Cid) -> bool
    ensures { result ≡ orders gxid cid message.now }
{
    match message {
        Message::Exec {
            gxid: g,
            cid: c,
            ..
        } => *g == gxid && *c == cid,
        _ => false,
    }
}
