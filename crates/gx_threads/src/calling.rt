// The calling thread: the coordinator receives and resumes, and sends again what wasn't answered.
use crate::hall::Hall;
use crate::lock::SetName;
use crate::parts::{Part, Turned, byte_of, has_moved, turn};
use crate::resending::Open;
use crate::serving::PATIENCE;
use crossbeam_utils::Backoff;
use gx_cells::Action;
use gx_ids::{Gxid, Mem, Node};
use gx_outside::{Gate, Journal};
use std::alloc::Global;
use std::sync::Wait;

// It sends again after so many turns at most in which nothing was done.
const MOST_PATIENCE: u32 = 65536;

/// Does the calling thread's part, and the parts for which no thread could be made, until no session has anything left or all are to
/// end.
pub fn call<N: SetName, J: Journal, G: Gate, R: Wait>(
    rt: &R,
    alloc: Global,
    hall: &Hall<J, N>,
    own: &[Part],
    gate: &G,
) -> Mem<()> {
    let pause = Backoff::new();
    let mut open = Open::new(alloc);
    let mut idle = 0u32;
    let mut patience = PATIENCE;
    for _ in rt.forever() {
        if hall.is_over() || !hall.coord.unfinished(rt) {
            return Ok(());
        }
        if take_turns(rt, hall, own, gate)? {
            pause.reset();
            idle = 0;
            patience = PATIENCE;
            hall.wake(rt);
        } else if idle < patience {
            idle = idle.saturating_add(1);
            pause.snooze();
        } else {
            idle = 0;
            patience = patience.saturating_mul(2).min(MOST_PATIENCE);
            resend(rt, hall, &mut open)?;
        }
    }
    unreachable!()
}

// One turn: whether something was done.
fn take_turns<N: SetName, J: Journal, G: Gate, R: Wait>(
    rt: &R,
    hall: &Hall<J, N>,
    own: &[Part],
    gate: &G,
) -> Mem<bool> {
    let mut moved = receive_all(rt, hall)?;
    moved |= has_moved(hall.coord.act(rt, Action::Resume)?);
    for part in own {
        if let Turned::Moved = turn(rt, hall, *part, gate)? {
            moved = true;
        }
    }
    Ok(moved)
}

fn receive_all<N: SetName, J: Journal, R: Wait>(rt: &R, hall: &Hall<J, N>) -> Mem<bool> {
    let mut moved = false;
    for place in 0..hall.segments.len() {
        moved |= has_moved(hall.coord.act(rt, Action::Receive(segment_at(place)))?);
    }
    Ok(moved)
}

// The segment at a place among all.
fn segment_at(place: usize) -> Node {
    Node(byte_of(place).saturating_add(1))
}

// Sends again all that isn't answered.
fn resend<N: SetName, J: Journal, R: Wait>(rt: &R, hall: &Hall<J, N>, open: &mut Open) -> Mem<()> {
    hall.coord.look(rt, open)?;
    let mut moved = resend_to_all(rt, hall, None)?;
    let mut place = 0;
    for _ in 0..open.len() {
        let Some(gxid) = open.at(place) else {
            break;
        };
        let sent = resend_to_all(rt, hall, Some(gxid))?;
        moved |= sent;
        if sent || !open.forget(place) {
            place = place.saturating_add(1);
        }
    }
    if moved {
        hall.wake(rt);
    }
    Ok(())
}

fn resend_to_all<N: SetName, J: Journal, R: Wait>(
    rt: &R,
    hall: &Hall<J, N>,
    gxid: Option<Gxid>,
) -> Mem<bool> {
    let mut moved = false;
    for place in 0..hall.segments.len() {
        let action = Action::Resend(segment_at(place), gxid);
        moved |= has_moved(hall.coord.act(rt, action)?);
    }
    Ok(moved)
}
