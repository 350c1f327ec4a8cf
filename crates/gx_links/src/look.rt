ghost use Rattle.std.specs.Prelude.{◌≡◌, IfErr, IfOk};
ghost use Rattle.crossbeam_queue.specs.SegTies.{IsSegPassOf};
ghost use Rattle.gx_links.specs.Ends.{IsReceiver};
ghost use Rattle.gx_links.specs.Views.{HasReceived};

use crate::line::{Pass, Queue};
use crate::roles::Receives;
use gx_msg::Envelope;
use std::marker::Model;
use std::sync::Wait;

/// That a receiver found its link's queue empty, seen as how many envelopes it had received by then. Only the queue's own empty answer
/// makes it.
#[derive(Drop)]
pub struct EmptyLook {
    received: u64,
}

impl Model for EmptyLook {
    ghost use Rattle.std.specs.Prelude.{ℕ};

    ghost Value = { ℕ };

    ghost view = { λ look. look.received };
}

impl EmptyLook {
    /// How many envelopes had been received.
    pub fn received(&self) -> u64
        ensures { result ≡ self.now }
    {
        self.received
    }
}

// Takes the first envelope that the queue holds, or tells that it held none.
pub(crate) fn take_first<R: Wait>(
    rt: &R,
    queue: &Queue,
    pass: &mut Pass,
    received: u64,
) -> Result<Envelope, EmptyLook>
    requires queue { IsSegPassOf queue.now pass.old }
    requires role { IsReceiver pass.old.me.view.client received }
    ensures queue { IsSegPassOf queue.now pass.new }
    ensures web { pass.new.web ≡ pass.old.web }
    ensures first { IfOk result (λ m. HasReceived pass.old.me.view.client m pass.new.me.view.client) }
    ensures empty { IfErr result (λ look. look ≡ received) }
    ensures unmoved { IfErr result (λ _. pass.new.me.view.client ≡ pass.old.me.view.client) }
{
    match queue.pop_as::<Receives, R>(rt, pass) {
        Some(envelope) => Ok(envelope),
        None => Err(EmptyLook { received }),
    }
}
