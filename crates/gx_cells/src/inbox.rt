ghost use Rattle.gx_cells.specs.Acts.{HasTaken};

use gx_links::LinkIn;
use gx_msg::Envelope;
use std::sync::Wait;

/// The end of a link on which messages come, and the envelope that is delivered once more before the next is taken.
#[derive(Drop)]
pub struct Inbox {
    pub source: LinkIn,
    pub again: Option<Envelope>,
}

// The envelope that is to be delivered now: the one that is to come once more, or else the link's next, where it isn't empty.
pub(crate) fn take<R: Wait>(rt: &R, inbox: &mut Inbox) -> Option<Envelope>
    ensures { HasTaken inbox.old inbox.new result }
{
    match inbox.again.take() {
        Some(envelope) => Some(envelope),
        None => match inbox.source.receive(rt) {
            Ok(envelope) => Some(envelope),
            Err(_look) => None,
        },
    }
}
