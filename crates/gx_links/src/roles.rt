// What the passes of a link's queue know, and what each step tells them.

use crossbeam_queue::protocol::{Join, Lesson, Outcome, Protocol, Split};
use gx_msg::Envelope;
use std::collections::LinkedList;

/// What a pass knows: the one that there is first; the one that sends, with what it sent; the one that receives, with what it
/// received; one that was both, with both lists; or nothing any more. No value of it is made.
pub enum View {
    First,
    Sender(LinkedList<Envelope>),
    Receiver(LinkedList<Envelope>),
    Closed(LinkedList<Envelope>, LinkedList<Envelope>),
    Spent,
}

/// The rule that what was sent is what was received, and then what the queue holds.
pub struct InOrder;

impl Protocol<Envelope, View> for InOrder {
    ghost use Rattle.gx_links.specs.declared.roles.View.TheVariants.{First};
    ghost use Rattle.gx_links.specs.Rule.{IsLinked};

    ghost holds = { IsLinked };

    ghost first = { First };
}

/// The first pass becomes the two ends, and the two ends become one that is closed.
pub struct TwoEnds;

impl Split<View> for TwoEnds {
    ghost use Rattle.std.specs.Prelude.{[]};
    ghost use Rattle.gx_links.specs.declared.roles.View.TheVariants.{Sender, Receiver};

    ghost left = { λ view. Sender [] };

    ghost right = { λ view. Receiver [] };
}

impl Join<View> for TwoEnds {
    ghost use Rattle.gx_links.specs.declared.roles.View.TheVariants.{Closed, Spent};
    ghost use Rattle.gx_links.specs.Views.{sent_by, received_by};

    ghost both = { λ sender receiver. Closed (sent_by sender) (received_by receiver) };

    ghost spent = { Spent };
}

/// A push.
pub struct Sends;

impl Outcome<Envelope, View> for Sends {
    ghost use Rattle.gx_links.specs.Views.{HasSent};

    ghost then = { HasSent };
}

/// A pop, and a look at an empty queue.
pub struct Receives;

impl Outcome<Envelope, View> for Receives {
    ghost use Rattle.gx_links.specs.Views.{HasReceived};

    ghost then = { HasReceived };
}

impl Lesson<Envelope, View> for Receives {
    ghost use Rattle.gx_links.specs.Views.{IsBehind};

    ghost fact = { IsBehind };
}

/// The look at the queue of a closed link.
pub struct LastLook;

impl Lesson<Envelope, View> for LastLook {
    ghost use Rattle.gx_links.specs.Views.{IsLeft};

    ghost fact = { IsLeft };
}
