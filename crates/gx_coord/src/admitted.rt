// What is admitted.
ghost use Rattle.std.specs.Prelude.{◌≡◌, is_some, length};
ghost use Rattle.gx_store.specs.Language.{IsScript};
ghost use Rattle.gx_rules.specs.AtCoordinator as turns;
ghost use Rattle.gx_coord.specs.Books.{coord_of};
ghost use Rattle.gx_coord.specs.Places.{AreIndexed};

use crate::again::is_awaited;
use crate::books::find_session;
use crate::coord::Coord;
use crate::locking::can_take;
use crate::rounds::{awaits_graph, can_begin};
use crate::starting::next_place;
use crate::work::Session;
use gx_ids::{Node, SessionId};
use gx_script::Script;
use gx_script::state::{Block, Pending};
use gx_store::NodeEvent;

fn is_segment(script: &Script, node: Node) -> bool
    ensures { result ≡ turns.is_segment script.now node }
{
    1 <= node.0 && node.0 <= script.segments
}

pub(crate) fn is_idle(session: Session) -> bool
    ensures { result ≡ turns.is_nothing session.state.pending }
{
    match session.state.pending {
        Pending::Nothing => true,
        _ => false,
    }
}

pub(crate) fn is_in_block(session: Session) -> bool
    ensures { result ≡ turns.is_in_block session.state.block }
{
    match session.state.block {
        Block::Outside => false,
        _ => true,
    }
}

// Whether a session has a line left.
pub(crate) fn is_left(coord: &Coord, id: SessionId) -> bool
    requires language { IsScript coord.now.script.value }
    requires places { AreIndexed coord.now.script.value.lines (length coord.now.script.value.sessions) coord.now.places.items }
    ensures { result ≡ is_some (turns.next_line coord.now.script.value (coord_of coord.now) id) }
{
    next_place(coord, id).is_some()
}

fn can_start(coord: &Coord, id: SessionId) -> bool
    requires language { IsScript coord.now.script.value }
    requires places { AreIndexed coord.now.script.value.lines (length coord.now.script.value.sessions) coord.now.places.items }
    ensures { result ≡ turns.coord_can coord.now.script.value (coord_of coord.now) (NodeEvent.Start id) }
{
    is_idle(find_session(coord, id)) && is_left(coord, id)
}

fn can_end(coord: &Coord, id: SessionId) -> bool
    requires language { IsScript coord.now.script.value }
    requires places { AreIndexed coord.now.script.value.lines (length coord.now.script.value.sessions) coord.now.places.items }
    ensures { result ≡ turns.coord_can coord.now.script.value (coord_of coord.now) (NodeEvent.End id) }
{
    let session = find_session(coord, id);
    is_idle(session) && !is_left(coord, id) && is_in_block(session)
}

// Whether the event may happen.
pub(crate) fn can(coord: &Coord, event: &NodeEvent) -> bool
    requires language { IsScript coord.now.script.value }
    requires places { AreIndexed coord.now.script.value.lines (length coord.now.script.value.sessions) coord.now.places.items }
    ensures { result ≡ turns.coord_can coord.now.script.value (coord_of coord.now) event.now }
{
    match event {
        NodeEvent::Deliver { from, .. } => is_segment(&coord.script, *from),
        NodeEvent::Start(id) => can_start(coord, *id),
        NodeEvent::End(id) => can_end(coord, *id),
        NodeEvent::Resend(node, of) => match of {
            Some(gxid) => is_awaited(coord, *gxid, *node),
            None => awaits_graph(coord, *node),
        },
        NodeEvent::Resume(gxid) => can_take(coord, *gxid),
        NodeEvent::Round => can_begin(coord),
    }
}
