ghost use Rattle.std.specs.Prelude.{◌≡◌, ◌++◌, [], List, length, IfOk};
ghost use Rattle.gx_msg.specs.declared.message.Envelope.{Envelope};

use crate::line::{Line, Queue};
use crate::receiver::LinkIn;
use crate::record::LinkRecord;
use crate::roles::{LastLook, TwoEnds};
use crate::sender::LinkOut;
use gx_ids::Mem;
use std::alloc::Global;
use std::sync::{Arc, Wait};

/// A new link: the end that sends, and the end that receives.
pub fn link(alloc: Global) -> Mem<(LinkOut, LinkIn)>
    ensures link { IfOk result (λ ends. ends.0.link ≡ ends.1.link) }
    ensures sent { IfOk result (λ ends. ends.0.sent ≡ []) }
    ensures received { IfOk result (λ ends. ends.1.received ≡ []) }
{
    let (queue, mut sender) = Queue::with_rule(alloc)?;
    let receiver = queue.another::<TwoEnds>(&mut sender);
    let line = Arc::new(alloc, Line { queue })?;
    let theirs = Arc::try_clone(&line)?;
    let out = LinkOut {
        line,
        pass: sender,
        count: 0,
    };
    let inward = LinkIn {
        line: theirs,
        pass: receiver,
        count: 0,
    };
    Ok((out, inward))
}

/// Ends a link. What was received is the beginning of what was sent, and the rest is what the queue held at a moment of this
/// call, at which nobody else had an end of it.
pub fn close<R: Wait>(rt: &R, out: LinkOut, inward: LinkIn) -> LinkRecord
    requires { out.link ≡ inward.link }
    ensures prefix { (held : List Envelope) × (out.sent ≡ inward.received ++ held) }
    ensures sent { result.sent ≡ length out.sent }
    ensures received { result.received ≡ length inward.received }
{
    let LinkOut {
        line,
        mut pass,
        count: sent,
    } = out;
    let LinkIn {
        line: _,
        pass: other,
        count: received,
    } = inward;
    line.queue.absorb::<TwoEnds>(&mut pass, other);
    line.queue.len_as::<LastLook, R>(rt, &mut pass);
    LinkRecord { sent, received }
}
