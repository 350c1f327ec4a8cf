// What a message came to, besides its marks.
ghost use Rattle.std.specs.Prelude.{◌≡◌, false, None};
ghost use Rattle.gx_segment.specs.Done.{answer_of};

use gx_ids::Gxid;
use gx_msg::{Message, Reply};

/// What a message came to, besides its marks: the answer to the coordinator, and whether the journal failed to take an item.
#[derive(Drop)]
pub struct Done {
    pub answer: Option<Message>,
    pub fails: bool,
}

pub(crate) fn nothing() -> Done
    ensures { result ≡ record { answer = None; fails = false } }
{
    Done {
        answer: None,
        fails: false,
    }
}

// The answer about a transaction.
pub(crate) fn answer(gxid: Gxid, reply: Option<Reply>) -> Option<Message>
    ensures { result ≡ answer_of gxid reply }
{
    match reply {
        Some(reply) => Some(Message::Answer(gxid, reply)),
        None => None,
    }
}

// An answer.
pub(crate) fn tell(gxid: Gxid, reply: Option<Reply>) -> Done
    ensures { result ≡ record { answer = answer_of gxid reply; fails = false } }
{
    Done {
        answer: answer(gxid, reply),
        fails: false,
    }
}
