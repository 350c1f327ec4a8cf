// A thread beside the calling one.
use crate::hall::{Hall, Post};
use crate::lock::SetName;
use crate::parts::{Part, Turned, turn};
use crossbeam_utils::Backoff;
use gx_outside::{Gate, Journal};
use std::sync::Wait;
use std::thread;

/// After so many turns in which nothing was done a thread parks, and the calling one sends again.
pub const PATIENCE: u32 = 64;

// Between two rounds of the detector its thread yields so many times.
const BETWEEN_ROUNDS: u32 = 4096;

/// Does a part until all are to end. Where memory runs out all are to end.
pub fn serve<N: SetName, J: Journal, G: Gate, R: Wait>(
    rt: &R,
    hall: &Hall<J, N>,
    post: &Post,
    gate: &G,
) {
    let pause = Backoff::new();
    let mut idle = 0u32;
    for _ in rt.forever() {
        if hall.is_over() {
            return;
        }
        match turn(rt, hall, post.part, gate) {
            Ok(Turned::Moved) => {
                pause.reset();
                idle = 0;
                rest(hall, post.part);
            }
            Ok(Turned::Idle) if idle < PATIENCE => {
                idle += 1;
                pause.snooze();
            }
            Ok(Turned::Idle) => post.flag.park(rt),
            Ok(Turned::Over) => return,
            Err(_) => {
                hall.fail();
                return;
            }
        }
    }
}

// The detector's thread leaves the others time before it begins another round.
fn rest<N: SetName, J: Journal>(hall: &Hall<J, N>, part: Part) {
    if let Part::Detector = part {
        for _ in 0..BETWEEN_ROUNDS {
            if hall.is_over() {
                return;
            }
            thread::yield_now();
        }
    }
}
