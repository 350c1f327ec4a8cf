// The coordinator apart receives.
ghost use Rattle.std.specs.Prelude.{◌≡◌, ◌<◌, ◌-◌, ◌^◌, ◌&&◌, nat_lt, true, None, Some, IfOk, OnOk, length};
ghost use Rattle.gx_agenda.specs.Faults.{AreFaultsOf};
ghost use Rattle.gx_coord.specs.Room.{has_room};
ghost use Rattle.gx_coord.specs.Steps.{IsCoord};
ghost use Rattle.gx_law_merge.specs.Apart.{at_place};
ghost use Rattle.gx_rules.specs.Coordinators.{Coord as RuleCoord};
ghost use Rattle.gx_store.specs.Refusals.{the_coordinator};
ghost use Rattle.gx_store.specs.declared.event.Event.TheVariants.{Receive};
ghost use Rattle.gx_cells.specs.CoordActs.{HasCoordGoneOn};
ghost use Rattle.gx_cells.specs.CoordKept.{IsCoordApart, coordinator_apart};
ghost use Rattle.gx_cells.specs.CoordReceipts.{Among, HasHeardFrom, HasHeardOne, IsAmong, inboxes_with, links_in, sight_of_all};
ghost use Rattle.gx_cells.specs.Receipts.{IsLonger, IsLongerIf, receipt_answer, sight, to_come, unless_worn};

use crate::coord_history::CoordHistory;
use crate::inbox::{Inbox, take};
use crate::looked::Looked;
use crate::receipts::{keep, times_of};
use crate::spreading::tell_all;
use gx_agenda::Faults;
use gx_coord::Coord;
use gx_ids::{Mem, Node};
use gx_msg::Envelope;
use gx_outside::Journal;
use gx_store::Event;
use std::sync::Wait;

const LIMIT: u64 = 1 << 62;

// The coordinator receives the envelope that came last from a segment.
fn deliver<R: Wait, J: Journal>(
    rt: &R,
    history: &mut CoordHistory,
    inbox: &Inbox,
    coord: &mut Coord,
    from: Node,
    envelope: &Envelope,
    journal: &mut J,
) -> Mem<()>
    ghost there: { Among }
    requires apart { IsCoordApart history.old (inboxes_with there inbox.now) coord.old (J.shelf journal.old) }
    requires is { there.coord ≡ coordinator_apart history.old (inboxes_with there inbox.now) }
    requires from { IsAmong there from }
    requires came { at_place inbox.now.source.received (length inbox.now.source.received) ≡ Some envelope.now }
    requires room { has_room history.old.script.value there.coord ≡ true }
    requires heard { envelope.now.clock < 2 ^ 62 }
    ensures apart { OnOk result (IsCoordApart history.new (inboxes_with there inbox.now) coord.new (J.shelf journal.new)) }
    ensures gone { HasCoordGoneOn history.old history.new }
    ensures steps { OnOk result (IsLonger (Receive from the_coordinator (length inbox.now.source.received)) history.old.steps history.new.steps) }
{
    let mut marks = history.steps.blank(history.alloc);
    coord.receive(
        &history.script,
        from,
        envelope.number,
        envelope.clock,
        envelope.incarnation,
        &envelope.message,
        journal,
        &mut marks,
    )?;
    let event = Event::Receive {
        from,
        to: Node(0),
        number: inbox.source.count(),
    };
    tell_all(rt, history, coord.clock, event, marks)
}

// It receives it, unless it is worn.
fn deliver_unless_worn<R: Wait, J: Journal>(
    rt: &R,
    history: &mut CoordHistory,
    inbox: &Inbox,
    coord: &mut Coord,
    from: Node,
    envelope: &Envelope,
    journal: &mut J,
) -> Mem<Looked>
    ghost there: { Among }
    requires apart { IsCoordApart history.old (inboxes_with there inbox.now) coord.old (J.shelf journal.old) }
    requires is { there.coord ≡ coordinator_apart history.old (inboxes_with there inbox.now) }
    requires from { IsAmong there from }
    requires came { at_place inbox.now.source.received (length inbox.now.source.received) ≡ Some envelope.now }
    ensures apart { OnOk result (IsCoordApart history.new (inboxes_with there inbox.now) coord.new (J.shelf journal.new)) }
    ensures gone { HasCoordGoneOn history.old history.new }
    ensures looked { IfOk result (λ looked. looked ≡ unless_worn (has_room history.old.script.value there.coord) envelope.now) }
    ensures steps { IfOk result (λ looked. IsLongerIf looked (Receive from the_coordinator (length inbox.now.source.received)) history.old.steps history.new.steps) }
{
    if may_receive(coord, envelope.clock) {
        deliver(rt, history, inbox, coord, from, envelope, journal)?;
        Ok(Looked::Stepped)
    } else {
        Ok(Looked::Worn)
    }
}

// Whether numbers are left for the receipt of an envelope of this clock.
fn may_receive(coord: &Coord, clock: u64) -> bool
    ghost c: { RuleCoord }
    requires { IsCoord coord.now c }
    ensures { result ≡ (has_room coord.now.script.value c && nat_lt clock (2 ^ 62)) }
{
    coord.has_room() && clock < LIMIT
}

// An envelope that has come for the first time.
fn receive_new<R: Wait, J: Journal>(
    rt: &R,
    history: &mut CoordHistory,
    inbox: &mut Inbox,
    coord: &mut Coord,
    faults: &Faults,
    from: Node,
    envelope: Envelope,
    journal: &mut J,
) -> Mem<Looked>
    ghost there: { Among }
    requires apart { IsCoordApart history.old (inboxes_with there inbox.old) coord.old (J.shelf journal.old) }
    requires is { there.coord ≡ coordinator_apart history.old (inboxes_with there inbox.old) }
    requires from { IsAmong there from }
    requires came { at_place inbox.old.source.received (length inbox.old.source.received) ≡ Some envelope }
    requires faults { AreFaultsOf history.old.script.value faults.now }
    requires alone { inbox.old.again ≡ None }
    ensures apart { OnOk result (IsCoordApart history.new (inboxes_with there inbox.new) coord.new (J.shelf journal.new)) }
    ensures gone { HasCoordGoneOn history.old history.new }
    ensures source { inbox.new.source ≡ inbox.old.source }
    ensures looked { IfOk result (λ looked. looked ≡ receipt_answer history.old.script.value from the_coordinator (has_room history.old.script.value there.coord) None (Some envelope)) }
    ensures again { IfOk result (λ looked. inbox.new.again ≡ to_come history.old.script.value from the_coordinator None (Some envelope) looked) }
    ensures steps { IfOk result (λ looked. IsLongerIf looked (Receive from the_coordinator (length inbox.old.source.received)) history.old.steps history.new.steps) }
{
    let times = times_of(faults, from, Node(0), envelope.number);
    if times == 0 {
        drop(envelope);
        return Ok(Looked::Lost);
    }
    let looked = deliver_unless_worn(rt, history, inbox, coord, from, &envelope, journal)?;
    keep(inbox, looked, times, envelope);
    Ok(looked)
}

// The next envelope of a segment is received: the one that is to come once more, or else the link's next.
fn receive_next<R: Wait, J: Journal>(
    rt: &R,
    history: &mut CoordHistory,
    inbox: &mut Inbox,
    coord: &mut Coord,
    faults: &Faults,
    from: Node,
    journal: &mut J,
) -> Mem<Looked>
    ghost there: { Among }
    requires apart { IsCoordApart history.old (inboxes_with there inbox.old) coord.old (J.shelf journal.old) }
    requires is { there.coord ≡ coordinator_apart history.old (inboxes_with there inbox.old) }
    requires from { IsAmong there from }
    requires faults { AreFaultsOf history.old.script.value faults.now }
    ensures apart { OnOk result (IsCoordApart history.new (inboxes_with there inbox.new) coord.new (J.shelf journal.new)) }
    ensures gone { HasCoordGoneOn history.old history.new }
    ensures link { inbox.new.source.link ≡ inbox.old.source.link }
    ensures received { IfOk result (HasHeardOne history.old.script.value there.coord from (sight history.old.steps inbox.old) (sight history.new.steps inbox.new)) }
{
    let is_new = inbox.again.is_none();
    let Some(envelope) = take(rt, inbox) else {
        return Ok(Looked::Empty);
    };
    if is_new {
        receive_new(rt, history, inbox, coord, faults, from, envelope, journal)
    } else {
        deliver_unless_worn(rt, history, inbox, coord, from, &envelope, journal)
    }
}

// The next envelope from a node is received, if it is a segment.
pub(crate) fn receive_from<R: Wait, J: Journal>(
    rt: &R,
    history: &mut CoordHistory,
    inboxes: &mut Vec<Inbox>,
    coord: &mut Coord,
    faults: &Faults,
    from: Node,
    journal: &mut J,
) -> Mem<Looked>
    ghost there: { Among }
    requires apart { IsCoordApart history.old inboxes.old.items coord.old (J.shelf journal.old) }
    requires all { there.inboxes ≡ inboxes.old.items }
    requires place { there.place ≡ from.0 - 1 }
    requires is { there.coord ≡ coordinator_apart history.old inboxes.old.items }
    requires faults { AreFaultsOf history.old.script.value faults.now }
    ensures apart { OnOk result (IsCoordApart history.new inboxes.new.items coord.new (J.shelf journal.new)) }
    ensures gone { HasCoordGoneOn history.old history.new }
    ensures links { links_in inboxes.new.items ≡ links_in inboxes.old.items }
    ensures heard { IfOk result (HasHeardFrom history.old.script.value there.coord from (sight_of_all history.old.steps inboxes.old.items) (sight_of_all history.new.steps inboxes.new.items)) }
{
    if from.0 == 0 || usize::from(from.0) > inboxes.len() {
        return Ok(Looked::NotNow);
    }
    let place = usize::from(from.0) - 1;
    receive_next(
        rt,
        history,
        &mut inboxes[place],
        coord,
        faults,
        from,
        journal,
    )
}
