// What a step sends: at most one message, the answer to the coordinator.
ghost use Rattle.std.specs.Prelude.{◌≡◌, ◌+◌, ◌<◌, ◌^◌, ◌++◌, ◌∷◌, [], length, OnOk};
ghost use Rattle.gx_store.specs.Refusals.{the_coordinator};
ghost use Rattle.gx_store.specs.declared.mark.Mark.TheVariants.{Sent};
ghost use Rattle.gx_rules.specs.Sending.{numbered};
ghost use Rattle.gx_segment.specs.Done.{to_coordinator};

use crate::done::Done;
use gx_ids::{Mem, Node};
use gx_msg::Message;
use gx_store::Mark;

// Sends the answer, with its mark behind the others.
pub(crate) fn send(done: Done, sent: &mut u64, marks: &mut Vec<Mark>) -> Mem<()>
    requires { sent.old < 2 ^ 62 }
    ensures marks { OnOk result (marks.new.items ≡ marks.old.items ++ numbered (λ node. sent.old) (to_coordinator done.answer)) }
    ensures sent { OnOk result (sent.new ≡ sent.old + length (to_coordinator done.answer)) }
{
    match done.answer {
        Some(message) => send_answer(message, sent, marks),
        None => Ok(()),
    }
}

fn send_answer(message: Message, sent: &mut u64, marks: &mut Vec<Mark>) -> Mem<()>
    requires { sent.old < 2 ^ 62 }
    ensures marks { OnOk result (marks.new.items ≡ marks.old.items ++ Sent the_coordinator (sent.old + 1) message ∷ []) }
    ensures sent { OnOk result (sent.new ≡ sent.old + 1) }
{
    *sent += 1;
    marks.push(Mark::Sent {
        to: Node(0),
        number: *sent,
        message,
    })?;
    Ok(())
}
