// A session's next line.
ghost use Rattle.std.specs.Prelude.{◌≡◌, ◌+◌, ◌<◌, ◌≤◌, ◌^◌, length, option_map, slice_get, true, IfOk, OnOk, Some};
ghost use Rattle.gx_script.specs.Session.{IsIdle, line_step};
ghost use Rattle.gx_store.specs.Language.{IsScript};
ghost use Rattle.gx_rules.specs.AtCoordinator as turns;
ghost use Rattle.gx_coord.specs.Books.{IsFramed, coord_of, stmt_at};
ghost use Rattle.gx_coord.specs.Places.{AreIndexed, at_index};
ghost use Rattle.gx_coord.specs.Sound.{IsSound};
ghost use Rattle.gx_coord.specs.Turns.{IsTurn};

use crate::asking::ask;
use crate::books::{find_session, set_session};
use crate::coord::Coord;
use crate::work::Session;
use gx_ids::{Mem, Seq, SessionId};
use gx_msg::Out;
use gx_script::{Line, LineStep, Script};
use gx_store::{Mark, NodeEvent};
use std::alloc::Global;

fn place_in(own: &[usize], index: usize) -> Option<usize>
    ensures { result ≡ slice_get own.now index }
{
    own.get(index).copied()
}

fn place_of(places: &[Seq<usize>], session: usize, index: usize) -> Option<usize>
    ensures { result ≡ at_index index (slice_get places.now session) }
{
    match places.get(session) {
        Some(own) => place_in(own.as_slice(), index),
        None => None,
    }
}

// The place of a session's next line, if it has one left.
pub(crate) fn next_place(coord: &Coord, id: SessionId) -> Option<usize>
    requires language { IsScript coord.now.script.value }
    requires places { AreIndexed coord.now.script.value.lines (length coord.now.script.value.sessions) coord.now.places.items }
    ensures line { turns.next_line coord.now.script.value (coord_of coord.now) id ≡ option_map (stmt_at coord.now.script.value.lines) result }
    ensures place { result ≡ at_index ((coord_of coord.now).sessions id.0).lines (slice_get coord.now.places.items id.0) }
{
    let lines = find_session(coord, id).lines;
    place_of(coord.places.as_slice(), usize::from(id.0), lines as usize)
}

// It has 32 bits.
pub(crate) fn small(number: u32) -> u32
    ensures same { result ≡ number }
    ensures small { number < 2 ^ 32 }
{
    number
}

// A session has started a line.
fn start_line(coord: &mut Coord, id: SessionId, line: &Line) -> LineStep
    requires idle { IsIdle ((coord_of coord.old).sessions id.0).state }
    requires session { id.0 < length coord.old.sessions.items }
    requires number { line.now.number ≡ ((coord_of coord.old).sessions id.0).lines + 1 }
    ensures step { result ≡ line_step ((coord_of coord.old).sessions id.0).state.block line.now.stmt }
    ensures framed { IsFramed coord.old coord.new }
    ensures coord { coord_of coord.new ≡ turns.starts_line (coord_of coord.old) id result }
    ensures small { line.now.number < 2 ^ 32 }
{
    let session = find_session(coord, id);
    let mut state = session.state;
    let asked = state.on_line(&line.stmt);
    set_session(
        coord,
        id,
        Session {
            state,
            lines: small(line.number),
            ..session
        },
    );
    asked
}

// A session starts the line at this place.
fn start_at(
    alloc: Global,
    script: &Script,
    coord: &mut Coord,
    id: SessionId,
    place: usize,
    line: &Line,
    marks: &mut Vec<Mark>,
) -> Mem<Seq<Out>>
    requires same { coord.old.script.value ≡ script.now }
    requires language { IsScript script.now }
    requires sound { IsSound script.now (coord_of coord.old) }
    requires drawn { coord.old.dtx.next.0 ≤ 2 ^ 62 }
    requires session { id.0 < length coord.old.sessions.items }
    requires idle { IsIdle ((coord_of coord.old).sessions id.0).state }
    requires there { slice_get script.now.lines place ≡ Some line.now }
    requires number { line.now.number ≡ ((coord_of coord.old).sessions id.0).lines + 1 }
    ensures turn { OnOk result (IsTurn coord.old coord.new marks.old.items marks.new.items (turns.starts script.now (coord_of coord.old) id (Some (stmt_at script.now.lines place)))) }
    ensures outs { IfOk result (λ outs. outs ≡ (turns.starts script.now (coord_of coord.old) id (Some (stmt_at script.now.lines place))).outs) }
{
    let asked = start_line(coord, id, line);
    ask(alloc, script, coord, id, place, asked, marks)
}

// A session starts its next line.
pub(crate) fn start(
    alloc: Global,
    script: &Script,
    coord: &mut Coord,
    id: SessionId,
    marks: &mut Vec<Mark>,
) -> Mem<Seq<Out>>
    requires same { coord.old.script.value ≡ script.now }
    requires language { IsScript script.now }
    requires places { AreIndexed script.now.lines (length script.now.sessions) coord.old.places.items }
    requires sound { IsSound script.now (coord_of coord.old) }
    requires drawn { coord.old.dtx.next.0 ≤ 2 ^ 62 }
    requires sessions { length coord.old.sessions.items ≡ length script.now.sessions }
    requires admitted { turns.coord_can script.now (coord_of coord.old) (NodeEvent.Start id) ≡ true }
    ensures turn { OnOk result (IsTurn coord.old coord.new marks.old.items marks.new.items (turns.starts script.now (coord_of coord.old) id (turns.next_line script.now (coord_of coord.old) id))) }
    ensures outs { IfOk result (λ outs. outs ≡ (turns.starts script.now (coord_of coord.old) id (turns.next_line script.now (coord_of coord.old) id)).outs) }
{
    match next_place(coord, id) {
        Some(place) => match script.lines.as_slice().get(place) {
            Some(line) => start_at(alloc, script, coord, id, place, line, marks),
            None => Ok(Seq::new(alloc)),
        },
        None => Ok(Seq::new(alloc)),
    }
}
