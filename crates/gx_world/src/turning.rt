// A node does an event, and what it has done becomes a step of the run.
ghost use Rattle.std.specs.Prelude.{◌≡◌, ◌≤◌, ◌<◌, ◌^◌, ◌-◌, ◌++◌, ◌∷◌, [], ℕ, true, false, if◌then◌else◌, All, Bool, Some, IfOk, OnOk, OnErr, length, slice_get};
ghost use Rattle.gx_ids.specs.declared.ids.Node.{Node as OneNode};
ghost use Rattle.gx_world.specs.Links.{IsAddressed, IsLong, link_in, places_from};
ghost use Rattle.gx_node.specs.Orders.{IsLaterBy};
ghost use Rattle.gx_rules.specs.AtCoordinator.{coord_can, coord_rule};
ghost use Rattle.gx_rules.specs.AtSegment.{seg_rule};
ghost use Rattle.gx_rules.specs.Machine.{at_node, seg_can};
ghost use Rattle.gx_rules.specs.Sending.{heard_in};
ghost use Rattle.gx_store.specs.Journals.{is_same_node};
ghost use Rattle.gx_store.specs.Refusals.{the_coordinator};
ghost use Rattle.gx_rules.specs.Segments.{Seg};
ghost use Rattle.gx_law_order.specs.Journals.{item_at};
ghost use Rattle.gx_coord.specs.Steps.{HasStepped, IsCoord};
ghost use Rattle.gx_rules.specs.Coordinators.{Coord as RuleCoord};
ghost use Rattle.gx_segment.specs.Steps.{HasStepped as HasSegmentStepped, IsSegment};
ghost use Rattle.gx_segment.specs.declared.segment.Segment.{Segment as OneSegment};
ghost use Rattle.gx_store.specs.declared.node.NodeEvent.TheVariants.{Deliver};
ghost use Rattle.gx_world.specs.Coming.{CoordMoment, Moment, SegMoment, coming};
ghost use Rattle.gx_world.specs.Turns.{HasSteppedAt, IsLaterAt, IsNext};
ghost use Rattle.gx_world.specs.Networks.{HasRoom, HasTurned, Stands};

use crate::arriving::own_event;
use crate::letter::Letter;
use crate::letters::Letters;
use crate::network::Network;
use gx_coord::Coord;
use gx_ids::{Mem, Node, Seq, Stamp};
use gx_outside::{Gate, Journal};
use gx_script::Script;
use gx_segment::Segment;
use gx_store::{Event, Mark, Step, Steps};
use std::alloc::Global;

// The coordinator does an event.
#[tactic(auto, using(crate::proofs::Coming::comes))]
pub(crate) fn coord_turn<J: Journal>(
    network: &mut Network,
    event: Event,
    journal: &mut J,
) -> Mem<()>
    ghost at: { Moment }
    requires stands { Stands network.old.script.value at.w network.old }
    requires there { at_node at.w event ≡ Some at.here }
    requires admitted { coord_can network.old.script.value at.w.coord at.here ≡ true }
    requires next { IsNext network.old.script.value at.w event the_coordinator at.here }
    requires heard { heard_in at.here < 2 ^ 62 }
    requires room { HasRoom network.old }
    ensures turned { OnOk result (HasTurned network.old.script.value at.w event the_coordinator at.here network.new (J.shelf journal.old) (J.shelf journal.new)) }
    ensures later { IsLaterBy (J.shelf journal.old) (J.shelf journal.new) (item_at network.old.script.value at.w the_coordinator false (Some at.here)) }
    ensures script { network.new.script ≡ network.old.script }
    ensures err { OnErr result (network.new.run ≡ network.old.run) }
{
    let marks = coord_step(
        network.alloc,
        &network.script,
        &mut network.coord,
        &mut network.run.steps,
        &network.letters,
        event,
        journal,
    )?;
    let step = step_of(network.coord.clock, Node(0), event, marks);
    push_step(network, step)
}

// The coordinator's step, with the list that the run has for its marks.
fn coord_step<J: Journal>(
    alloc: Global,
    script: &Script,
    coord: &mut Coord,
    steps: &mut Steps,
    letters: &Letters,
    event: Event,
    journal: &mut J,
) -> Mem<Seq<Mark>>
    ghost at: { CoordMoment }
    requires same { coord.old.script.value ≡ script.now }
    requires usable { coord.old.spent ≡ false }
    requires is { IsCoord coord.old at.c }
    requires there { coming steps.old letters.now event ≡ Some at.here }
    requires admitted { coord_can coord.old.script.value at.c at.here ≡ true }
    requires clock { coord.old.clock < 2 ^ 62 }
    requires heard { heard_in at.here < 2 ^ 62 }
    requires numbers { All (λ sent. sent < 2 ^ 62) coord.old.sent.items }
    requires drawn { coord.old.dtx.next.0 < 2 ^ 62 }
    requires rounds { coord.old.detector.begun < 2 ^ 62 }
    ensures stepped { IfOk result (HasStepped coord.old coord.new at.c at.here (J.shelf journal.old) (J.shelf journal.new)) }
    ensures later { IsLaterBy (J.shelf journal.old) (J.shelf journal.new) (coord_rule coord.old.script.value at.c at.here false).item }
    ensures steps { steps.new ≡ steps.old }
{
    let mut marks = steps.blank(alloc);
    coord_event(script, coord, steps, letters, event, journal, &mut marks)?;
    Ok(Seq::from_vec(marks))
}

// The coordinator receives what the run lends, or does the event by itself.
fn coord_event<J: Journal>(
    script: &Script,
    coord: &mut Coord,
    steps: &Steps,
    letters: &Letters,
    event: Event,
    journal: &mut J,
    marks: &mut Vec<Mark>,
) -> Mem<()>
    ghost at: { CoordMoment }
    requires same { coord.old.script.value ≡ script.now }
    requires usable { coord.old.spent ≡ false }
    requires is { IsCoord coord.old at.c }
    requires there { coming steps.now letters.now event ≡ Some at.here }
    requires admitted { coord_can coord.old.script.value at.c at.here ≡ true }
    requires clock { coord.old.clock < 2 ^ 62 }
    requires heard { heard_in at.here < 2 ^ 62 }
    requires numbers { All (λ sent. sent < 2 ^ 62) coord.old.sent.items }
    requires drawn { coord.old.dtx.next.0 < 2 ^ 62 }
    requires rounds { coord.old.detector.begun < 2 ^ 62 }
    requires blank { marks.old.items ≡ [] }
    ensures stepped { OnOk result (HasStepped coord.old coord.new at.c at.here (J.shelf journal.old) (J.shelf journal.new) marks.new.items) }
    ensures later { IsLaterBy (J.shelf journal.old) (J.shelf journal.new) (coord_rule coord.old.script.value at.c at.here false).item }
{
    match event {
        Event::Receive { from, to, number } => match letters.letter(steps, from, to, number) {
            Some(letter) => coord_receives(script, coord, from, letter, journal, marks),
            None => unreachable!(),
        },
        Event::Restart(_) => unreachable!(),
        _ => coord.step(script, own_event(event), journal, marks),
    }
}

// The coordinator receives a message.
fn coord_receives<J: Journal>(
    script: &Script,
    coord: &mut Coord,
    from: Node,
    letter: Letter<'_>,
    journal: &mut J,
    marks: &mut Vec<Mark>,
) -> Mem<()>
    ghost c: { RuleCoord }
    requires same { coord.old.script.value ≡ script.now }
    requires usable { coord.old.spent ≡ false }
    requires is { IsCoord coord.old c }
    requires admitted { coord_can coord.old.script.value c (Deliver from letter) ≡ true }
    requires clock { coord.old.clock < 2 ^ 62 }
    requires heard { letter.clock < 2 ^ 62 }
    requires numbers { All (λ sent. sent < 2 ^ 62) coord.old.sent.items }
    requires drawn { coord.old.dtx.next.0 < 2 ^ 62 }
    requires rounds { coord.old.detector.begun < 2 ^ 62 }
    requires blank { marks.old.items ≡ [] }
    ensures stepped { OnOk result (HasStepped coord.old coord.new c (Deliver from letter.entry) (J.shelf journal.old) (J.shelf journal.new) marks.new.items) }
    ensures later { IsLaterBy (J.shelf journal.old) (J.shelf journal.new) (coord_rule coord.old.script.value c (Deliver from letter.entry) false).item }
{
    let Letter {
        number,
        clock,
        incarnation,
        message,
    } = letter;
    coord.receive(
        script,
        from,
        number,
        clock,
        incarnation,
        message,
        journal,
        marks,
    )
}

// A segment does an event.
pub(crate) fn seg_turn<J: Journal, G: Gate>(
    network: &mut Network,
    event: Event,
    at: Node,
    journal: &mut J,
    gate: &G,
) -> Mem<()>
    ghost moment: { Moment }
    requires stands { Stands network.old.script.value moment.w network.old }
    requires there { at_node moment.w event ≡ Some moment.here }
    requires some { 1 ≤ at.0 }
    requires few { at.0 ≤ network.old.script.value.segments }
    requires admitted { seg_can network.old.script.value (moment.w.segs at.0) moment.here ≡ true }
    requires next { IsNext network.old.script.value moment.w event at moment.here }
    requires heard { heard_in moment.here < 2 ^ 62 }
    requires room { HasRoom network.old }
    ensures turned { OnOk result (HasTurned network.old.script.value moment.w event at moment.here network.new (J.shelf journal.old) (J.shelf journal.new)) }
    ensures later { IsLaterBy (J.shelf journal.old) (J.shelf journal.new) (item_at network.old.script.value moment.w at false (Some moment.here)) }
    ensures script { network.new.script ≡ network.old.script }
    ensures err { OnErr result (network.new.run ≡ network.old.run) }
{
    let step = seg_step(
        network.alloc,
        &mut network.segments,
        &mut network.run.steps,
        &network.letters,
        event,
        at,
        journal,
        gate,
    )?;
    push_step(network, step)
}

// The segment of a number, from 1, does an event, with the list that the run has for its marks.
fn seg_step<J: Journal, G: Gate>(
    alloc: Global,
    segments: &mut Vec<Segment>,
    steps: &mut Steps,
    letters: &Letters,
    event: Event,
    at: Node,
    journal: &mut J,
    gate: &G,
) -> Mem<Step>
    ghost moment: { SegMoment }
    requires some { 1 ≤ at.0 }
    requires few { at.0 ≤ length segments.old.items }
    requires usable { (segment : OneSegment) → slice_get segments.old.items (at.0 - 1) ≡ Some segment → segment.spent ≡ false }
    requires is { (segment : OneSegment) → slice_get segments.old.items (at.0 - 1) ≡ Some segment → IsSegment segment moment.s }
    requires room { All (λ segment. (segment.clock < 2 ^ 62) × (segment.sent < 2 ^ 62)) segments.old.items }
    requires there { coming steps.old letters.now event ≡ Some moment.here }
    requires admitted { (segment : OneSegment) → slice_get segments.old.items (at.0 - 1) ≡ Some segment → seg_can segment.script.value moment.s moment.here ≡ true }
    requires heard { heard_in moment.here < 2 ^ 62 }
    ensures stepped { IfOk result (λ step. HasSteppedAt at event segments.old.items segments.new.items moment.s moment.here (J.shelf journal.old) (J.shelf journal.new) step) }
    ensures later { IsLaterAt at segments.old.items moment.s moment.here (J.shelf journal.old) (J.shelf journal.new) }
    ensures steps { steps.new ≡ steps.old }
{
    let mut marks = steps.blank(alloc);
    let segment = &mut segments[usize::from(at.0) - 1];
    seg_event(segment, steps, letters, event, journal, gate, &mut marks)?;
    Ok(step_of(segment.clock, at, event, Seq::from_vec(marks)))
}

// A segment receives what the run lends, or does the event by itself.
fn seg_event<J: Journal, G: Gate>(
    segment: &mut Segment,
    steps: &Steps,
    letters: &Letters,
    event: Event,
    journal: &mut J,
    gate: &G,
    marks: &mut Vec<Mark>,
) -> Mem<()>
    ghost at: { SegMoment }
    requires is { segment.old.spent ≡ false → IsSegment segment.old at.s }
    requires there { coming steps.now letters.now event ≡ Some at.here }
    requires admitted { seg_can segment.old.script.value at.s at.here ≡ true }
    requires clock { segment.old.clock < 2 ^ 62 }
    requires heard { heard_in at.here < 2 ^ 62 }
    requires numbers { segment.old.sent < 2 ^ 62 }
    requires blank { marks.old.items ≡ [] }
    ensures stepped { OnOk result (HasSegmentStepped segment.old segment.new at.s at.here (J.shelf journal.old) (J.shelf journal.new) marks.new.items) }
    ensures later { IsLaterBy (J.shelf journal.old) (J.shelf journal.new) (seg_rule segment.old.script.value at.s at.here false).item }
{
    match event {
        Event::Receive { from, to, number } => match letters.letter(steps, from, to, number) {
            Some(letter) => seg_receives(segment, from, letter, journal, gate, marks),
            None => unreachable!(),
        },
        Event::Restart(_) => unreachable!(),
        _ => segment.step(own_event(event), journal, gate, marks),
    }
}

// A segment receives a message.
fn seg_receives<J: Journal, G: Gate>(
    segment: &mut Segment,
    from: Node,
    letter: Letter<'_>,
    journal: &mut J,
    gate: &G,
    marks: &mut Vec<Mark>,
) -> Mem<()>
    ghost s: { Seg }
    requires is { segment.old.spent ≡ false → IsSegment segment.old s }
    requires admitted { seg_can segment.old.script.value s (Deliver from letter) ≡ true }
    requires clock { segment.old.clock < 2 ^ 62 }
    requires heard { letter.clock < 2 ^ 62 }
    requires numbers { segment.old.sent < 2 ^ 62 }
    requires blank { marks.old.items ≡ [] }
    ensures stepped { OnOk result (HasSegmentStepped segment.old segment.new s (Deliver from letter.entry) (J.shelf journal.old) (J.shelf journal.new) marks.new.items) }
    ensures later { IsLaterBy (J.shelf journal.old) (J.shelf journal.new) (seg_rule segment.old.script.value s (Deliver from letter.entry) false).item }
{
    let Letter {
        number,
        clock,
        incarnation,
        message,
    } = letter;
    segment.receive(
        from,
        number,
        clock,
        incarnation,
        message,
        journal,
        gate,
        marks,
    )
}

// The step of a node's event.
fn step_of(clock: u64, node: Node, event: Event, marks: Seq<Mark>) -> Step
    ensures { result ≡ record { stamp = record { clock = clock; node = node }; event = event; marks = marks } }
{
    Step {
        stamp: Stamp { clock, node },
        event,
        marks,
    }
}

// The step goes to the run's end, and where its messages stand is noted.
fn push_step(network: &mut Network, step: Step) -> Mem<()>
    ghost segments: { ℕ }
    requires long { IsLong segments network.old.letters }
    requires addressed { All (IsAddressed segments step.stamp.node) step.marks }
    ensures run { OnOk result (network.new.run.steps ≡ network.old.run.steps ++ step ∷ []) }
    ensures err { OnErr result (network.new.run ≡ network.old.run) }
    ensures long { OnOk result (IsLong segments network.new.letters) }
    ensures links { OnOk result ((f t : OneNode) → link_in network.new.letters f t ≡ link_in network.old.letters f t
        ++ (if is_same_node f step.stamp.node then places_from (length network.old.run.steps) 0 t step.marks else [])) }
    ensures others { network.new ≡ record network.old { letters = network.new.letters; run = network.new.run } }
{
    let place = network.run.steps.len();
    network
        .letters
        .note(step.stamp.node, place, step.marks.as_slice())?;
    let Step {
        stamp,
        event,
        marks,
    } = step;
    network.run.steps.push(stamp, event, marks.into_vec())
}
