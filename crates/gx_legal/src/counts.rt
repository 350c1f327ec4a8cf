// Counts of marks and of events.
ghost use Rattle.std.specs.Prelude.{◌≡◌, ◌↔◌, ◌≤◌, ◌∷◌, [], IsTrue, length};
ghost use Rattle.gx_store.specs.declared.event.Event.TheVariants.{End, Start};
ghost use Rattle.gx_store.specs.Marks.{is_answered as was_answered, session_of as starter_of, start_count as count_of};
ghost use Rattle.gx_store.specs.Points.{ends_in, starts_in};

use gx_ids::{Gxid, SessionId};
use gx_store::{Event, Mark, Step};

pub(crate) fn starts(mark: &Mark) -> usize
    ensures is { result ≡ count_of (mark.now ∷ []) }
    ensures room { result ≤ 1 }
{
    match mark {
        Mark::Start { .. } => 1,
        _ => 0,
    }
}

fn is_answer_to(mark: &Mark, session: SessionId) -> bool
    ensures { result ≡ was_answered session (mark.now ∷ []) }
{
    match mark {
        Mark::Answer {
            session: answered,
            ..
        } => answered.0 == session.0,
        _ => false,
    }
}

/// Whether a line of the session was answered.
pub fn is_answered(session: SessionId, marks: &[Mark]) -> bool
    ensures { result ≡ was_answered session marks.now }
{
    for mark in marks {
        if is_answer_to(mark, session) {
            return true;
        }
    }
    false
}

fn starter_in(mark: &Mark, gxid: Gxid) -> Option<SessionId>
    ensures { result ≡ starter_of (mark.now ∷ []) gxid }
{
    match mark {
        Mark::Start {
            gxid: started,
            session,
        } if started.0 == gxid.0 => Some(*session),
        _ => None,
    }
}

/// The session that started the transaction.
pub fn session_of(marks: &[Mark], gxid: Gxid) -> Option<SessionId>
    ensures { result ≡ starter_of marks.now gxid }
{
    for mark in marks {
        if let Some(session) = starter_in(mark, gxid) {
            return Some(session);
        }
    }
    None
}

/// Whether the event starts a line of the session.
pub fn is_start_of(event: Event, session: SessionId) -> bool
    ensures { IsTrue result ↔ (event ≡ Start session) }
{
    match event {
        Event::Start(starter) => starter == session,
        _ => false,
    }
}

/// Whether the event ends the session.
fn is_end_of(event: Event, session: SessionId) -> bool
    ensures { IsTrue result ↔ (event ≡ End session) }
{
    match event {
        Event::End(ended) => ended == session,
        _ => false,
    }
}

/// How many lines of the session these steps start.
pub fn start_count_of(session: SessionId, steps: &[Step]) -> usize
    ensures { result ≡ starts_in session steps.now }
{
    let mut count = 0;
    for step in steps {
        if is_start_of(step.event, session) {
            count += 1;
        }
    }
    count
}

/// How often these steps end the session.
pub fn end_count_of(session: SessionId, steps: &[Step]) -> usize
    ensures { result ≡ ends_in session steps.now }
{
    let mut count = 0;
    for step in steps {
        if is_end_of(step.event, session) {
            count += 1;
        }
    }
    count
}
