// What one thread does, in turns.
ghost use Rattle.std.specs.Prelude.{◌≡◌, ◌<◌};

use crate::hall::Hall;
use crate::lock::SetName;
use gx_cells::{Action, Looked};
use gx_coord::left::Left;
use gx_ids::{Mem, Node, SessionId};
use gx_outside::{Gate, Journal};
use std::sync::Wait;

/// What one thread does.
#[derive(Clone, Copy)]
pub enum Part {
    /// A session's lines start, and its open block ends.
    Session(SessionId),
    /// A segment resumes and receives; the one at this place among all.
    Segment(usize),
    /// Rounds of the detector begin.
    Detector,
}

/// A number below 256 as it is.
pub fn byte_of(number: usize) -> u8
    ensures { number < 256 → result ≡ number }
{
    if number < 256 { number as u8 } else { u8::MAX }
}

/// Whether an action has changed something: a step was made, or an envelope was taken.
pub fn has_moved(looked: Looked) -> bool {
    match looked {
        Looked::Stepped | Looked::Lost => true,
        _ => false,
    }
}

/// What came of a turn.
#[derive(Clone, Copy)]
pub enum Turned {
    /// Something was done.
    Moved,
    /// Nothing was to be done then.
    Idle,
    /// Nothing will be to be done.
    Over,
}

fn turned_if(moved: bool) -> Turned {
    if moved { Turned::Moved } else { Turned::Idle }
}

/// One turn of a part.
pub fn turn<N: SetName, J: Journal, G: Gate, R: Wait>(
    rt: &R,
    hall: &Hall<J, N>,
    part: Part,
    gate: &G,
) -> Mem<Turned> {
    match part {
        Part::Session(session) => session_turn(rt, hall, session),
        Part::Segment(place) => segment_turn(rt, hall, place, gate),
        Part::Detector => own_turn(rt, hall, Action::Round),
    }
}

// The coordinator does something by itself.
fn own_turn<N: SetName, J: Journal, R: Wait>(
    rt: &R,
    hall: &Hall<J, N>,
    action: Action,
) -> Mem<Turned> {
    let moved = has_moved(hall.coord.act(rt, action)?);
    if moved {
        hall.wake_behind(rt);
    }
    Ok(turned_if(moved))
}

fn session_turn<N: SetName, J: Journal, R: Wait>(
    rt: &R,
    hall: &Hall<J, N>,
    session: SessionId,
) -> Mem<Turned> {
    match hall.coord.left(rt, session) {
        Left::Lines => own_turn(rt, hall, Action::Start(session)),
        Left::OpenBlock => own_turn(rt, hall, Action::End(session)),
        Left::Nothing => Ok(Turned::Over),
    }
}

fn segment_turn<N: SetName, J: Journal, G: Gate, R: Wait>(
    rt: &R,
    hall: &Hall<J, N>,
    place: usize,
    gate: &G,
) -> Mem<Turned> {
    let Some(segment) = hall.segments.get(place) else {
        return Ok(Turned::Over);
    };
    let resumed = has_moved(segment.act(rt, Action::Resume, gate)?);
    let received = has_moved(segment.act(rt, Action::Receive(Node(0)), gate)?);
    Ok(turned_if(resumed || received))
}
