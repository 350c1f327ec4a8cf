// One event, before its messages are numbered.
ghost use Rattle.std.specs.Prelude.{◌≡◌, ◌≤◌, ◌<◌, ◌∷◌, ◌^◌, [], length, None, true, false, IfOk, OnOk};
ghost use Rattle.gx_store.specs.Language.{IsScript};
ghost use Rattle.gx_rules.specs.AtCoordinator as turns;
ghost use Rattle.gx_rules.specs.Rounds.{victims_at};
ghost use Rattle.gx_coord.specs.Books.{coord_of};
ghost use Rattle.gx_coord.specs.Own.{IsOwn};
ghost use Rattle.gx_coord.specs.Places.{AreIndexed};
ghost use Rattle.gx_coord.specs.Sound.{IsSound};
ghost use Rattle.gx_coord.specs.Turns.{CanEnd, IsTurn};

use crate::again::awaited;
use crate::books::{find_session, set_state};
use crate::coord::Coord;
use crate::lines::roll_back;
use crate::messages::plain;
use crate::resuming::resume;
use crate::rounds::{begin_round, collect_again};
use crate::starting::start;
use crate::statuses::Turned;
use gx_ids::{Gxid, Mem, Node, Seq, SessionId};
use gx_msg::{Message, Out};
use gx_script::state::Block;
use gx_script::{Script, SessionState};
use gx_store::{Mark, NodeEvent};
use std::alloc::Global;

pub(crate) fn one_out(alloc: Global, node: Node, message: Message) -> Mem<Seq<Out>>
    ensures { IfOk result (λ outs. outs ≡ record { node = node; message = message } ∷ []) }
{
    let outs = vec![in alloc; Out { node, message }]?;
    Ok(Seq::from_vec(outs))
}

// The awaited message to a segment is sent again.
pub(crate) fn resend(alloc: Global, coord: &Coord, node: Node, gxid: Gxid) -> Mem<Seq<Out>>
    ensures { IfOk result (λ outs. outs ≡ (turns.resends (coord_of coord.now) node (turns.awaited (coord_of coord.now) gxid node)).outs) }
{
    let message = awaited(alloc, coord, gxid, node)?;
    match message {
        Some(message) => one_out(alloc, node, message),
        None => {
            drop(message);
            Ok(Seq::new(alloc))
        }
    }
}

// A session ends: its open block aborts, and one that has failed is closed.
pub(crate) fn end(
    alloc: Global,
    coord: &mut Coord,
    id: SessionId,
    marks: &mut Vec<Mark>,
) -> Mem<Seq<Out>>
    requires { CanEnd (coord_of coord.old) id }
    ensures turn { OnOk result (IsTurn coord.old coord.new marks.old.items marks.new.items (turns.ends_in (coord_of coord.old) id ((coord_of coord.old).sessions id.0).state.block)) }
    ensures outs { IfOk result (λ outs. outs ≡ (turns.ends_in (coord_of coord.old) id ((coord_of coord.old).sessions id.0).state.block).outs) }
{
    let session = find_session(coord, id);
    match session.state.block {
        Block::Open(_) => {
            set_state(coord, id, SessionState::new());
            roll_back(coord, session.transaction, marks)
        }
        Block::Failed => {
            set_state(coord, id, SessionState::new());
            Ok(Seq::new(alloc))
        }
        Block::Outside => Ok(Seq::new(alloc)),
    }
}

// What doesn't come in an envelope leaves the journal alone and names nobody.
fn take_own(
    alloc: Global,
    script: &Script,
    coord: &mut Coord,
    event: &NodeEvent,
    marks: &mut Vec<Mark>,
) -> Mem<Seq<Out>>
    requires same { coord.old.script.value ≡ script.now }
    requires language { IsScript script.now }
    requires places { AreIndexed script.now.lines (length script.now.sessions) coord.old.places.items }
    requires sound { IsSound script.now (coord_of coord.old) }
    requires drawn { coord.old.dtx.next.0 ≤ 2 ^ 62 }
    requires sessions { length coord.old.sessions.items ≡ length script.now.sessions }
    requires segments { coord.old.detector.segments ≡ script.now.segments }
    requires rounds { coord.old.detector.begun < 2 ^ 62 }
    requires admitted { turns.coord_can script.now (coord_of coord.old) event.now ≡ true }
    requires own { IsOwn event.now }
    ensures turn { OnOk result (IsTurn coord.old coord.new marks.old.items marks.new.items (turns.on_event script.now (coord_of coord.old) event.now false)) }
    ensures outs { IfOk result (λ outs. outs ≡ (turns.on_event script.now (coord_of coord.old) event.now false).outs) }
{
    match event {
        NodeEvent::Deliver { .. } => unreachable!(),
        NodeEvent::Start(id) => start(alloc, script, coord, *id, marks),
        NodeEvent::End(id) => end(alloc, coord, *id, marks),
        NodeEvent::Resend(node, Some(gxid)) => resend(alloc, coord, *node, *gxid),
        NodeEvent::Resend(node, None) => collect_again(alloc, coord, *node),
        NodeEvent::Resume(gxid) => resume(alloc, script, coord, *gxid, marks),
        NodeEvent::Round => begin_round(script, coord),
    }
}

// The same, and the event is dropped.
pub(crate) fn take_alone(
    alloc: Global,
    script: &Script,
    coord: &mut Coord,
    event: NodeEvent,
    marks: &mut Vec<Mark>,
) -> Mem<Turned>
    requires same { coord.old.script.value ≡ script.now }
    requires language { IsScript script.now }
    requires places { AreIndexed script.now.lines (length script.now.sessions) coord.old.places.items }
    requires sound { IsSound script.now (coord_of coord.old) }
    requires drawn { coord.old.dtx.next.0 ≤ 2 ^ 62 }
    requires sessions { length coord.old.sessions.items ≡ length script.now.sessions }
    requires segments { coord.old.detector.segments ≡ script.now.segments }
    requires rounds { coord.old.detector.begun < 2 ^ 62 }
    requires admitted { turns.coord_can script.now (coord_of coord.old) event ≡ true }
    requires own { IsOwn event }
    ensures turn { IfOk result (λ turned. IsTurn coord.old coord.new marks.old.items marks.new.items (turns.on_event script.now (coord_of coord.old) event turned.fails)) }
    ensures outs { IfOk result (λ turned. turned.outs ≡ (turns.on_event script.now (coord_of coord.old) event turned.fails).outs) }
    ensures unfailing { IfOk result (λ turned. turned.fails ≡ false) }
    ensures item { OnOk result ((turns.on_event script.now (coord_of coord.old) event false).item ≡ None) }
    ensures victims { IfOk result (λ turned. turned.victims ≡ victims_at (coord_of coord.old) event) }
{
    let outs = take_own(alloc, script, coord, &event, marks);
    drop(event);
    Ok(plain(alloc, outs?))
}
