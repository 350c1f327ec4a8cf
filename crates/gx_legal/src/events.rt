// Whether an event may happen behind steps, and draws what it has to.
ghost use Rattle.std.specs.Prelude.{◌≡◌, ◌↔◌, IsTrue};
ghost use Rattle.gx_store.specs.Legal.{IsDrawn, IsIdle, LegalEnd, LegalEvent};
ghost use Rattle.gx_store.specs.Points.{marks_in};
ghost use Rattle.gx_legal.specs.Events.{DrawsIfDue, RollsBack};

use crate::lines::{draws, is_in_block, next_line, transaction_at};
use crate::marks::is_aborted;
use crate::moment::Moment;
use crate::seats::{end_count_at, standing_at, start_count_at};
use crate::standing::standing_of;
use gx_ids::SessionId;
use gx_store::{Event, Mark};

// Whether the session has no line under way.
fn is_idle(moment: &Moment<'_, '_>, session: SessionId) -> bool
    requires { moment.now.before.now ≡ marks_in moment.now.steps.now }
    ensures { IsTrue result ↔ IsIdle session moment.now.steps.now }
{
    start_count_at(moment, session) == standing_at(moment, session).answered
}

// Whether the transaction that the session is in, if it is in one, aborts among the marks that its step made.
fn rolls_back(moment: &Moment<'_, '_>, session: SessionId, made: &[Mark]) -> bool
    ensures { IsTrue result ↔ RollsBack moment.now.script.now session moment.now.before.now made.now }
{
    match transaction_at(moment, session) {
        Some(gxid) => is_aborted(made, gxid),
        None => true,
    }
}

fn is_legal_end(moment: &Moment<'_, '_>, session: SessionId, made: &[Mark]) -> bool
    requires { moment.now.before.now ≡ marks_in moment.now.steps.now }
    ensures { IsTrue result ↔ LegalEnd moment.now.script.now moment.now.steps.now session made.now }
{
    is_idle(moment, session)
        && next_line(moment, session).is_none()
        && is_in_block(standing_at(moment, session).block)
        && end_count_at(moment, session) == 0
        && rolls_back(moment, session, made)
}

/// Whether the moment's event may happen there and make these marks, as far as the event asks for them.
pub fn is_legal_event(moment: &Moment<'_, '_>, made: &[Mark]) -> bool
    requires { moment.now.before.now ≡ marks_in moment.now.steps.now }
    ensures { IsTrue result ↔ LegalEvent moment.now.script.now moment.now.steps.now moment.now.event made.now }
{
    match moment.event {
        Event::Start(session) => is_idle(moment, session) && next_line(moment, session).is_some(),
        Event::End(session) => is_legal_end(moment, session, made),
        _ => true,
    }
}

fn draws_if_due(moment: &Moment<'_, '_>, session: SessionId, made: &[Mark]) -> bool
    ensures { IsTrue result ↔ DrawsIfDue moment.now.script.now session moment.now.before.now made.now }
{
    let started = standing_of(moment.script, session, made).started;
    match next_line(moment, session) {
        Some(line) => !draws(standing_at(moment, session).block, line) || started.is_some(),
        None => true,
    }
}

/// Whether a line that draws a transaction draws it among the marks that its step made.
pub fn is_drawn(moment: &Moment<'_, '_>, made: &[Mark]) -> bool
    requires { moment.now.before.now ≡ marks_in moment.now.steps.now }
    ensures { IsTrue result ↔ IsDrawn moment.now.script.now moment.now.steps.now moment.now.event made.now }
{
    match moment.event {
        Event::Start(session) => draws_if_due(moment, session, made),
        _ => true,
    }
}
