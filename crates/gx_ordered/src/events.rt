// Whether an event may happen at its node.
ghost use Rattle.std.specs.Prelude.{◌≡◌, ◌↔◌, IsTrue, List};
ghost use Rattle.gx_store.specs.Ordered.{IsDelivery, IsEventAt};
ghost use Rattle.gx_store.specs.declared.run.Step.{Step as OneStep};
ghost use Rattle.gx_ordered.specs.Links.{AreFiled, IsProgress, IsSentBefore, link_in};

use crate::nodes::{is_coordinator, is_link};
use crate::progress::Progress;
use gx_ids::{Node, Stamp};
use gx_script::Script;
use gx_store::{Event, Step};

// Whether the message of this number was sent before this clock, by when those of its link were.
fn is_sent_before(sendings: &[u64], number: u64, clock: u64) -> bool
    ensures { IsTrue result ↔ IsSentBefore sendings.now number clock }
{
    match number.checked_sub(1) {
        Some(before) => match sendings.get(before as usize) {
            Some(sent) => *sent < clock,
            None => false,
        },
        None => false,
    }
}

fn is_delivery(script: &Script, progress: &Progress, stamp: Stamp, from: Node, number: u64) -> bool
    ghost steps: { List OneStep }
    requires progress { IsProgress steps progress.now }
    requires filed { AreFiled steps }
    ensures { IsTrue result ↔ IsDelivery script.now steps stamp.clock from stamp.node number }
{
    is_link(script, from, stamp.node)
        && is_sent_before(progress.link(from, stamp.node), number, stamp.clock)
}

/// Whether the step's event may happen at its node.
pub(crate) fn is_event_at(script: &Script, progress: &Progress, step: &Step) -> bool
    ghost steps: { List OneStep }
    requires progress { IsProgress steps progress.now }
    requires filed { AreFiled steps }
    ensures { IsTrue result ↔ IsEventAt script.now steps step.now step.now.event }
{
    let stamp = step.stamp;
    match step.event {
        Event::Receive { from, to, number } => {
            stamp.node == to && is_delivery(script, progress, stamp, from, number)
        }
        Event::Resume { node, .. } | Event::Restart(node) => stamp.node == node,
        Event::Start(_) | Event::End(_) | Event::Resend { .. } | Event::Round => {
            is_coordinator(stamp.node)
        }
    }
}
