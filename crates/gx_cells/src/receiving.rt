// A segment apart receives.
ghost use Rattle.std.specs.Prelude.{◌≡◌, ◌<◌, ◌^◌, ◌&&◌, nat_lt, true, None, Some, IfOk, OnOk, length};
ghost use Rattle.gx_agenda.specs.Faults.{AreFaultsOf};
ghost use Rattle.gx_law_merge.specs.Apart.{at_place};
ghost use Rattle.gx_rules.specs.Segments.{Seg};
ghost use Rattle.gx_segment.specs.Room.{has_room};
ghost use Rattle.gx_segment.specs.Steps.{IsSegment};
ghost use Rattle.gx_store.specs.Refusals.{the_coordinator};
ghost use Rattle.gx_store.specs.declared.event.Event.TheVariants.{Receive};
ghost use Rattle.gx_cells.specs.Acts.{HasGoneOn};
ghost use Rattle.gx_cells.specs.Kept.{IsSegmentApart, segment_apart};
ghost use Rattle.gx_cells.specs.Receipts.{HasReceived, IsLonger, IsLongerIf, receipt_answer, sight, to_come, unless_worn};

use crate::history::History;
use crate::inbox::{Inbox, take};
use crate::looked::Looked;
use crate::receipts::{keep, times_of};
use crate::sending::tell;
use gx_agenda::Faults;
use gx_ids::{Mem, Node};
use gx_msg::Envelope;
use gx_outside::{Gate, Journal};
use gx_segment::Segment;
use gx_store::Event;
use std::sync::Wait;

const LIMIT: u64 = 1 << 62;

// The segment receives the envelope that came last.
fn deliver<R: Wait, J: Journal, G: Gate>(
    rt: &R,
    history: &mut History,
    inbox: &Inbox,
    segment: &mut Segment,
    envelope: &Envelope,
    journal: &mut J,
    gate: &G,
) -> Mem<()>
    ghost s: { Seg }
    requires apart { IsSegmentApart history.old inbox.now segment.old (J.shelf journal.old) }
    requires is { s ≡ segment_apart history.old inbox.now.source.received }
    requires came { at_place inbox.now.source.received (length inbox.now.source.received) ≡ Some envelope.now }
    requires room { has_room s ≡ true }
    requires heard { envelope.now.clock < 2 ^ 62 }
    ensures apart { OnOk result (IsSegmentApart history.new inbox.now segment.new (J.shelf journal.new)) }
    ensures gone { HasGoneOn history.old history.new }
    ensures steps { OnOk result (IsLonger (Receive the_coordinator history.old.node (length inbox.now.source.received)) history.old.steps history.new.steps) }
{
    let mut marks = history.steps.blank(history.alloc);
    segment.receive(
        Node(0),
        envelope.number,
        envelope.clock,
        envelope.incarnation,
        &envelope.message,
        journal,
        gate,
        &mut marks,
    )?;
    let event = Event::Receive {
        from: Node(0),
        to: history.node,
        number: inbox.source.count(),
    };
    tell(rt, history, segment.clock, event, marks)
}

// It receives it, unless it is worn.
fn deliver_unless_worn<R: Wait, J: Journal, G: Gate>(
    rt: &R,
    history: &mut History,
    inbox: &Inbox,
    segment: &mut Segment,
    envelope: &Envelope,
    journal: &mut J,
    gate: &G,
) -> Mem<Looked>
    ghost s: { Seg }
    requires apart { IsSegmentApart history.old inbox.now segment.old (J.shelf journal.old) }
    requires is { s ≡ segment_apart history.old inbox.now.source.received }
    requires came { at_place inbox.now.source.received (length inbox.now.source.received) ≡ Some envelope.now }
    ensures apart { OnOk result (IsSegmentApart history.new inbox.now segment.new (J.shelf journal.new)) }
    ensures gone { HasGoneOn history.old history.new }
    ensures looked { IfOk result (λ looked. looked ≡ unless_worn (has_room s) envelope.now) }
    ensures steps { IfOk result (λ looked. IsLongerIf looked (Receive the_coordinator history.old.node (length inbox.now.source.received)) history.old.steps history.new.steps) }
{
    if may_receive(segment, envelope.clock) {
        deliver(rt, history, inbox, segment, envelope, journal, gate)?;
        Ok(Looked::Stepped)
    } else {
        Ok(Looked::Worn)
    }
}

// Whether numbers are left for the receipt of an envelope of this clock.
fn may_receive(segment: &Segment, clock: u64) -> bool
    ghost s: { Seg }
    requires { IsSegment segment.now s }
    ensures { result ≡ (has_room s && nat_lt clock (2 ^ 62)) }
{
    segment.has_room() && clock < LIMIT
}

// An envelope that has come for the first time.
fn receive_new<R: Wait, J: Journal, G: Gate>(
    rt: &R,
    history: &mut History,
    inbox: &mut Inbox,
    segment: &mut Segment,
    faults: &Faults,
    envelope: Envelope,
    journal: &mut J,
    gate: &G,
) -> Mem<Looked>
    ghost s: { Seg }
    requires apart { IsSegmentApart history.old inbox.old segment.old (J.shelf journal.old) }
    requires is { s ≡ segment_apart history.old inbox.old.source.received }
    requires came { at_place inbox.old.source.received (length inbox.old.source.received) ≡ Some envelope }
    requires faults { AreFaultsOf history.old.script.value faults.now }
    requires alone { inbox.old.again ≡ None }
    ensures apart { OnOk result (IsSegmentApart history.new inbox.new segment.new (J.shelf journal.new)) }
    ensures gone { HasGoneOn history.old history.new }
    ensures source { inbox.new.source ≡ inbox.old.source }
    ensures looked { IfOk result (λ looked. looked ≡ receipt_answer history.old.script.value the_coordinator history.old.node (has_room s) None (Some envelope)) }
    ensures again { IfOk result (λ looked. inbox.new.again ≡ to_come history.old.script.value the_coordinator history.old.node None (Some envelope) looked) }
    ensures steps { IfOk result (λ looked. IsLongerIf looked (Receive the_coordinator history.old.node (length inbox.old.source.received)) history.old.steps history.new.steps) }
{
    let times = times_of(faults, Node(0), history.node, envelope.number);
    if times == 0 {
        drop(envelope);
        return Ok(Looked::Lost);
    }
    let looked = deliver_unless_worn(rt, history, inbox, segment, &envelope, journal, gate)?;
    keep(inbox, looked, times, envelope);
    Ok(looked)
}

// The next envelope is received: the one that is to come once more, or else the link's next.
pub(crate) fn receive_next<R: Wait, J: Journal, G: Gate>(
    rt: &R,
    history: &mut History,
    inbox: &mut Inbox,
    segment: &mut Segment,
    faults: &Faults,
    journal: &mut J,
    gate: &G,
) -> Mem<Looked>
    ghost s: { Seg }
    requires apart { IsSegmentApart history.old inbox.old segment.old (J.shelf journal.old) }
    requires is { s ≡ segment_apart history.old inbox.old.source.received }
    requires faults { AreFaultsOf history.old.script.value faults.now }
    ensures apart { OnOk result (IsSegmentApart history.new inbox.new segment.new (J.shelf journal.new)) }
    ensures gone { HasGoneOn history.old history.new }
    ensures link { inbox.new.source.link ≡ inbox.old.source.link }
    ensures received { IfOk result (HasReceived history.old.script.value the_coordinator history.old.node (has_room s) (sight history.old.steps inbox.old) (sight history.new.steps inbox.new)) }
{
    let is_new = inbox.again.is_none();
    let Some(envelope) = take(rt, inbox) else {
        return Ok(Looked::Empty);
    };
    if is_new {
        receive_new(rt, history, inbox, segment, faults, envelope, journal, gate)
    } else {
        deliver_unless_worn(rt, history, inbox, segment, &envelope, journal, gate)
    }
}
