// Whether what a message answers is asked anew by the step that receives it.
ghost use Rattle.std.specs.Prelude.{◌≡◌, ◌&&◌, ◌∷◌, [], List, Option, None, true, if◌then◌else◌, is_some};
ghost use Rattle.std.specs.List.{list_any};
ghost use Rattle.std.specs.Option.{option_copied};
ghost use Rattle.gx_ids.specs.declared.ids.Gxid.{Gxid as OneGxid};
ghost use Rattle.gx_ids.specs.declared.ids.Node.{Node as OneNode};
ghost use Rattle.gx_msg.specs.declared.message.Message.{Message as OneMessage};
ghost use Rattle.gx_store.specs.declared.run.Step.{Step as OneStep};
ghost use Rattle.gx_store.specs.Journals.{is_same_node};
ghost use Rattle.gx_store.specs.Schedule.{asked_by, is_answer_to, unless_answered};
ghost use Rattle.gx_agenda.specs.Awaited.{told_in};

use crate::expected::is_about;
use gx_ids::{Gxid, Node};
use gx_msg::Message;
use gx_store::{Event, Mark};

// Whether these marks ask anew for what the event's message answers, so that it makes no difference.
pub(crate) fn is_asked_anew(event: Event, told: Option<&Message>, marks: &[Mark]) -> bool
    ensures { result ≡ true → (steps : List OneStep) → option_copied told.entry ≡ told_in steps event → (segment : OneNode) (g : OneGxid) (was : Option OneMessage)
        → asked_by segment g (unless_answered steps segment g was event) marks.now ≡ asked_by segment g was marks.now }
{
    match event {
        Event::Receive {
            from,
            to: _,
            number: _,
        } => is_answer_made_up(from, told, marks),
        _ => false,
    }
}

// Whether these marks ask the node anew for what its message answers.
fn is_answer_made_up(from: Node, told: Option<&Message>, marks: &[Mark]) -> bool
    ensures { result ≡ true → (segment : OneNode) (g : OneGxid) (was : Option OneMessage)
        → asked_by segment g (if is_same_node from segment && is_answer_to was g (option_copied told.entry) then None else was) marks.now ≡ asked_by segment g was marks.now }
{
    match told {
        Some(Message::Answer(gxid, _)) => do_ask(from, *gxid, marks),
        _ => false,
    }
}

// Whether one of these marks sends the segment an order about the transaction.
fn do_ask(segment: Node, gxid: Gxid, marks: &[Mark]) -> bool
    ensures { result ≡ list_any (λ m. is_some (asked_by segment gxid None (m ∷ []))) marks.now }
{
    for mark in marks {
        if asks(segment, gxid, mark) {
            return true;
        }
    }
    false
}

fn asks(segment: Node, gxid: Gxid, mark: &Mark) -> bool
    ensures { result ≡ is_some (asked_by segment gxid None (mark.now ∷ [])) }
{
    match mark {
        Mark::Sent {
            to,
            number: _,
            message,
        } => *to == segment && is_about(gxid, message),
        _ => false,
    }
}
