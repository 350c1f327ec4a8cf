// One step on a segment's parts.
ghost use Rattle.std.specs.Prelude.{◌≡◌, ◌<◌, ◌+◌, ◌^◌, [], true, false, nat_lt, if◌then◌else◌, OnOk};
ghost use Rattle.gx_node.specs.Orders.{IsLaterBy};
ghost use Rattle.gx_rules.specs.AtSegment.{seg_rule};
ghost use Rattle.gx_rules.specs.Machine.{seg_can};
ghost use Rattle.gx_rules.specs.Sending.{heard_in};
ghost use Rattle.gx_slices.specs.Agrees.{IsHeld};
ghost use Rattle.gx_segment.specs.Before.{Before};
ghost use Rattle.gx_segment.specs.Reports.{report_in};
ghost use Rattle.gx_segment.specs.Steps.{HasGone, delivered};

use crate::collecting::LastReport;
use crate::messages::{take_event, take_message};
use crate::sending::send;
use gx_ids::{Gxid, Mem, Node};
use gx_msg::Message;
use gx_outside::{Gate, Journal};
use gx_script::Script;
use gx_slices::Held;
use gx_store::{Mark, NodeEvent};
use std::alloc::Global;

// Takes the event and sends the answer.
pub(crate) fn step_on<J: Journal, G: Gate>(
    alloc: Global,
    node: Node,
    script: &Script,
    held: &mut Held,
    horizon: &mut Gxid,
    report: &mut LastReport,
    sent: &mut u64,
    clock: &mut u64,
    event: NodeEvent,
    journal: &mut J,
    gate: &G,
    marks: &mut Vec<Mark>,
) -> Mem<()>
    ghost was: { Before }
    requires node { node ≡ was.seg.node }
    requires script { script.now ≡ was.script }
    requires held { IsHeld was.script.tables held.old was.seg }
    requires horizon { horizon.old ≡ was.seg.horizon }
    requires report { report.old ≡ report_in was.seg }
    requires admitted { seg_can was.script was.seg event ≡ true }
    requires sent { sent.old ≡ was.seg.sent }
    requires clock { clock.old ≡ was.seg.clock }
    requires numbers { sent.old < 2 ^ 62 }
    requires early { clock.old < 2 ^ 62 }
    requires heard { heard_in event < 2 ^ 62 }
    requires blank { marks.old.items ≡ [] }
    ensures gone { OnOk result (HasGone was event held.new horizon.new report.new sent.new clock.new (J.shelf journal.old) (J.shelf journal.new) marks.new.items) }
    ensures later { IsLaterBy (J.shelf journal.old) (J.shelf journal.new) (seg_rule was.script was.seg event false).item }
{
    *clock = clock_behind(*clock, heard(&event));
    let done = take_event(
        alloc, node, script, held, horizon, report, event, journal, gate, marks,
    )?;
    send(done, sent, marks)?;
    Ok(())
}

// The same of a message that is lent, with its number, its sender's clock and its incarnation.
pub(crate) fn receive_on<J: Journal, G: Gate>(
    alloc: Global,
    node: Node,
    script: &Script,
    held: &mut Held,
    horizon: &mut Gxid,
    report: &mut LastReport,
    sent: &mut u64,
    clock: &mut u64,
    from: Node,
    number: u64,
    heard: u64,
    incarnation: u64,
    message: &Message,
    journal: &mut J,
    gate: &G,
    marks: &mut Vec<Mark>,
) -> Mem<()>
    ghost was: { Before }
    requires node { node ≡ was.seg.node }
    requires script { script.now ≡ was.script }
    requires held { IsHeld was.script.tables held.old was.seg }
    requires horizon { horizon.old ≡ was.seg.horizon }
    requires report { report.old ≡ report_in was.seg }
    requires sent { sent.old ≡ was.seg.sent }
    requires clock { clock.old ≡ was.seg.clock }
    requires numbers { sent.old < 2 ^ 62 }
    requires early { clock.old < 2 ^ 62 }
    requires heard { heard < 2 ^ 62 }
    requires blank { marks.old.items ≡ [] }
    ensures gone { OnOk result (HasGone was (delivered from number heard incarnation message.now) held.new horizon.new report.new sent.new clock.new (J.shelf journal.old) (J.shelf journal.new) marks.new.items) }
    ensures later { IsLaterBy (J.shelf journal.old) (J.shelf journal.new) (seg_rule was.script was.seg (delivered from number heard incarnation message.now) false).item }
{
    *clock = clock_behind(*clock, heard);
    let done = take_message(
        alloc, node, script, held, horizon, report, message, journal, gate, marks,
    )?;
    send(done, sent, marks)?;
    Ok(())
}

// The clock that an event brings.
fn heard(event: &NodeEvent) -> u64
    ensures { result ≡ heard_in event.now }
{
    match event {
        NodeEvent::Deliver { from: _, envelope } => envelope.clock,
        _ => 0,
    }
}

// One more than the greater of the two.
fn clock_behind(clock: u64, heard: u64) -> u64
    requires early { clock < 2 ^ 62 }
    requires heard { heard < 2 ^ 62 }
    ensures { result ≡ (if nat_lt clock heard then heard else clock) + 1 }
{
    if clock < heard { heard + 1 } else { clock + 1 }
}
