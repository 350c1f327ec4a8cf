// What the steps and marks of a run so far come to, kept from one mark to the next.
ghost use Rattle.std.specs.Prelude.{◌≡◌, ◌||◌, ◌⊎◌, ◌<◌, ◌≤◌, ◌+◌, ◌∷◌, [], IfOk, IsTrue, OnOk};
ghost use Rattle.std.specs.BTreeSet.{contains};
ghost use Rattle.gx_dsnap.specs.Gxids.{gxid_cmp};
ghost use Rattle.gx_ids.specs.declared.ids.Gxid.{Gxid as OneGxid};
ghost use Rattle.gx_store.specs.Marks.{is_aborted, is_committed};
ghost use Rattle.gx_legal.specs.Tallies.{AreMoved, AreSeats, AreStepped, CanCount, CanMove, CanStep, HasEndedIn, IsCounted, IsStepped, IsTally, IsUnmoved, mover as session_moved};

use crate::counts::starts;
use crate::own::note_mark;
use crate::standing::{Standing, moved, no_standing};
use gx_ids::{Gxid, Mem, SessionId};
use gx_script::Script;
use gx_store::{Event, Mark};
use std::alloc::Global;
use std::collections::{BTreeMap, BTreeSet};

/// A session: where it stands behind the marks so far, how many lines the steps so far have started, and how often they have ended it.
#[derive(Clone, Copy)]
pub struct Seat {
    pub standing: Standing,
    pub started: usize,
    pub ended: usize,
}

/// The seats of a script's sessions, the transactions that have committed and aborted, a number below which all have ended, how many marks
/// there are and how many of them start a transaction, and where the marks of each transaction's rows begin.
#[derive(Drop)]
pub struct Tally {
    pub seats: Vec<Seat>,
    pub committed: BTreeSet<Gxid>,
    pub aborted: BTreeSet<Gxid>,
    pub unsettled: u64,
    pub count: usize,
    pub starts: usize,
    pub firsts: BTreeMap<Gxid, usize>,
}

fn seats_of(alloc: Global, script: &Script) -> Mem<Vec<Seat>>
    ensures { IfOk result (λ seats. AreSeats script.now [] [] seats.items) }
{
    let mut seats = Vec::new(alloc);
    for _ in 0..script.sessions.len() {
        seats.push(Seat {
            standing: no_standing(),
            started: 0,
            ended: 0,
        })?;
    }
    Ok(seats)
}

/// The tally of a run of the script that has just begun.
pub fn no_tally(alloc: Global, script: &Script) -> Mem<Tally>
    ensures { IfOk result (IsTally script.now [] []) }
{
    Ok(Tally {
        seats: seats_of(alloc, script)?,
        committed: BTreeSet::new(alloc),
        aborted: BTreeSet::new(alloc),
        unsettled: 1,
        count: 0,
        starts: 0,
        firsts: BTreeMap::new(alloc),
    })
}

// The session that the mark moves.
fn mover(mark: &Mark) -> Option<SessionId>
    ensures { result ≡ session_moved mark.now }
{
    match mark {
        Mark::Start { session, .. } | Mark::Answer { session, .. } => Some(*session),
        _ => None,
    }
}

fn move_seat(script: &Script, seats: &mut Vec<Seat>, session: SessionId, mark: &Mark)
    requires room { CanMove seats.old.items }
    requires others { IsUnmoved script.now mark.now session }
    ensures { AreMoved script.now mark.now seats.old.items seats.new.items }
{
    let place = session.0 as usize;
    if place < seats.len() {
        let seat = seats[place];
        seats[place] = Seat {
            standing: moved(script, seat.standing, session, mark),
            ..seat
        };
    }
}

fn move_seats(script: &Script, seats: &mut Vec<Seat>, mark: &Mark)
    requires { CanMove seats.old.items }
    ensures { AreMoved script.now mark.now seats.old.items seats.new.items }
{
    if let Some(session) = mover(mark) {
        move_seat(script, seats, session, mark);
    }
}

fn add_commit(committed: &mut BTreeSet<Gxid>, mark: &Mark) -> Mem<()>
    ensures { OnOk result ((g : OneGxid) → contains gxid_cmp committed.new g ≡ (contains gxid_cmp committed.old g || is_committed (mark.now ∷ []) g)) }
{
    if let Mark::Commit { gxid } = mark {
        committed.insert(*gxid)?;
    }
    Ok(())
}

fn add_abort(aborted: &mut BTreeSet<Gxid>, mark: &Mark) -> Mem<()>
    ensures { OnOk result ((g : OneGxid) → contains gxid_cmp aborted.new g ≡ (contains gxid_cmp aborted.old g || is_aborted (mark.now ∷ []) g)) }
{
    if let Mark::Abort { gxid } = mark {
        aborted.insert(*gxid)?;
    }
    Ok(())
}

fn has_ended(tally: &Tally, number: u64) -> bool
    ensures { IsTrue result → HasEndedIn tally.now (record { 0 = number }) }
{
    let gxid = Gxid(number);
    tally.committed.contains(&gxid) || tally.aborted.contains(&gxid)
}

fn next_of(number: u64) -> u64
    ensures { result ≤ number + 1 }
{
    if number < u64::MAX {
        number + 1
    } else {
        number
    }
}

// The number, or the next one where the transaction of this number has ended.
fn one_on(tally: &Tally, number: u64) -> u64
    ensures { (g : OneGxid) → g.0 < result → (g.0 < number) ⊎ HasEndedIn tally.now g }
{
    if has_ended(tally, number) {
        next_of(number)
    } else {
        number
    }
}

fn two_on(tally: &Tally, number: u64) -> u64
    ensures { (g : OneGxid) → g.0 < result → (g.0 < number) ⊎ HasEndedIn tally.now g }
{
    let next = one_on(tally, number);
    one_on(tally, next)
}

// Each end lets it go on by two, so that it comes up with those that ended out of their order.
fn unsettled_with(tally: &Tally, mark: &Mark) -> u64
    ensures { (g : OneGxid) → g.0 < result → (g.0 < tally.now.unsettled) ⊎ HasEndedIn tally.now g }
{
    match mark {
        Mark::Commit { .. } | Mark::Abort { .. } => two_on(tally, tally.unsettled),
        _ => tally.unsettled,
    }
}

/// Counts one more mark.
pub fn count_mark(script: &Script, tally: &mut Tally, mark: &Mark) -> Mem<()>
    requires { CanCount tally.old }
    ensures { OnOk result (IsCounted script.now mark.now tally.old tally.new) }
{
    add_commit(&mut tally.committed, mark)?;
    add_abort(&mut tally.aborted, mark)?;
    note_mark(&mut tally.firsts, mark, tally.count)?;
    tally.unsettled = unsettled_with(tally, mark);
    move_seats(script, &mut tally.seats, mark);
    tally.count += 1;
    tally.starts += starts(mark);
    Ok(())
}

fn start_line(seats: &mut Vec<Seat>, session: SessionId)
    requires { CanStep seats.old.items }
    ensures { AreStepped (Event.Start session) seats.old.items seats.new.items }
{
    let place = session.0 as usize;
    if place < seats.len() {
        let seat = seats[place];
        seats[place] = Seat {
            started: seat.started + 1,
            ..seat
        };
    }
}

fn end_session(seats: &mut Vec<Seat>, session: SessionId)
    requires { CanStep seats.old.items }
    ensures { AreStepped (Event.End session) seats.old.items seats.new.items }
{
    let place = session.0 as usize;
    if place < seats.len() {
        let seat = seats[place];
        seats[place] = Seat {
            ended: seat.ended + 1,
            ..seat
        };
    }
}

/// Counts one more step's event.
pub fn count_event(tally: &mut Tally, event: Event)
    requires { CanStep tally.old.seats.items }
    ensures { IsStepped event tally.old tally.new }
{
    match event {
        Event::Start(session) => start_line(&mut tally.seats, session),
        Event::End(session) => end_session(&mut tally.seats, session),
        _ => {}
    }
}
