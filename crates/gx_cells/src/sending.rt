// A step joins the history once its messages are sent.
ghost use Rattle.std.specs.Prelude.{◌≡◌, ◌++◌, ◌∷◌, [], IfOk, OnOk};
ghost use Rattle.gx_law_merge.specs.Apart.{envelope_of as envelope_at, sent_in_step};
ghost use Rattle.gx_cells.specs.Acts.{HasGoneOn};

use crate::history::History;
use gx_ids::{Duplicate, Mem, Node, OutOfMemory, Stamp};
use gx_links::LinkOut;
use gx_msg::{Envelope, Message};
use gx_store::{Event, Mark};
use std::alloc::Global;
use std::sync::Wait;

const MOST: u64 = 1 << 62;

// The envelope of a message that a step of this clock sends.
fn envelope_of(alloc: Global, clock: u64, number: u64, message: &Message) -> Mem<Envelope>
    ensures { IfOk result (λ envelope. envelope ≡ envelope_at clock number message.now) }
{
    Ok(Envelope {
        number,
        clock,
        incarnation: 1,
        message: message.copy(alloc)?,
    })
}

// Sends an envelope. A link on which 2^62 were sent takes no more, which counts as want of memory.
fn send<R: Wait>(rt: &R, out: &mut LinkOut, envelope: Envelope) -> Mem<()>
    ensures link { out.new.link ≡ out.old.link }
    ensures sent { OnOk result (out.new.sent ≡ out.old.sent ++ envelope ∷ []) }
{
    if out.count() >= MOST {
        drop(envelope);
        return Err(OutOfMemory);
    }
    match out.send(rt, envelope) {
        Ok(()) => Ok(()),
        Err(_back) => Err(OutOfMemory),
    }
}

// Sends what a mark has sent to a node.
fn send_mark<R: Wait>(
    rt: &R,
    alloc: Global,
    out: &mut LinkOut,
    node: Node,
    clock: u64,
    mark: &Mark,
) -> Mem<()>
    ensures link { out.new.link ≡ out.old.link }
    ensures sent { OnOk result (out.new.sent ≡ out.old.sent ++ sent_in_step node clock (mark.now ∷ [])) }
{
    match mark {
        Mark::Sent {
            to,
            number,
            message,
        } if *to == node => send(rt, out, envelope_of(alloc, clock, *number, message)?),
        _ => Ok(()),
    }
}

// Sends what a step's marks have sent to a node.
pub(crate) fn send_marks<R: Wait>(
    rt: &R,
    alloc: Global,
    out: &mut LinkOut,
    node: Node,
    clock: u64,
    marks: &[Mark],
) -> Mem<()>
    ensures link { out.new.link ≡ out.old.link }
    ensures sent { OnOk result (out.new.sent ≡ out.old.sent ++ sent_in_step node clock marks.now) }
{
    for mark in marks {
        send_mark(rt, alloc, out, node, clock, mark)?;
    }
    Ok(())
}

// A step of a segment, whose messages go to the coordinator.
pub(crate) fn tell<R: Wait>(
    rt: &R,
    history: &mut History,
    clock: u64,
    event: Event,
    marks: Vec<Mark>,
) -> Mem<()>
    ensures gone { HasGoneOn history.old history.new }
    ensures sent { OnOk result (history.new.out.sent ≡ history.old.out.sent ++ sent_in_step (record { 0 = 0 }) clock marks.items) }
    ensures steps { OnOk result (history.new.steps ≡ history.old.steps ++ record { stamp = record { clock = clock; node = history.old.node }; event = event; marks = marks.items } ∷ []) }
{
    let node = history.node;
    send_marks(
        rt,
        history.alloc,
        &mut history.out,
        Node(0),
        clock,
        marks.as_slice(),
    )?;
    history.steps.push(Stamp { clock, node }, event, marks)
}
