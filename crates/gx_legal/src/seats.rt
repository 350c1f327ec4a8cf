// What a moment's tally tells. A session beyond the script has no seat there, and is counted anew.
ghost use Rattle.std.specs.Prelude.{◌≡◌, ◌<◌, ◌≤◌, length, true};
ghost use Rattle.gx_ids.specs.declared.ids.Gxid.{Gxid as OneGxid};
ghost use Rattle.gx_store.specs.Marks.{is_aborted as has_aborted, is_ended as has_ended, start_count as count_of};
ghost use Rattle.gx_store.specs.Points.{ends_in, starts_in};
ghost use Rattle.gx_legal.specs.Standings.{IsStanding, commands_in};

use crate::counts::{end_count_of, start_count_of};
use crate::moment::Moment;
use crate::standing::{Standing, standing_of};
use gx_ids::{Gxid, SessionId};

/// Where the session stands at the moment.
pub fn standing_at(moment: &Moment<'_, '_>, session: SessionId) -> Standing
    ensures is { IsStanding moment.now.script.now session moment.now.before.now result }
    ensures answers { result.answered ≤ length moment.now.before.now }
    ensures commands { commands_in result.block ≤ length moment.now.before.now }
{
    match moment.tally.seats.get(session.0 as usize) {
        Some(seat) => seat.standing,
        None => standing_of(moment.script, session, moment.before),
    }
}

/// How many lines of the session the steps before the moment's start.
pub fn start_count_at(moment: &Moment<'_, '_>, session: SessionId) -> usize
    ensures { result ≡ starts_in session moment.now.steps.now }
{
    match moment.tally.seats.get(session.0 as usize) {
        Some(seat) => seat.started,
        None => start_count_of(session, moment.steps),
    }
}

/// How often they end the session.
pub fn end_count_at(moment: &Moment<'_, '_>, session: SessionId) -> usize
    ensures { result ≡ ends_in session moment.now.steps.now }
{
    match moment.tally.seats.get(session.0 as usize) {
        Some(seat) => seat.ended,
        None => end_count_of(session, moment.steps),
    }
}

/// How many transactions were started by then.
pub fn starts_at(moment: &Moment<'_, '_>) -> usize
    ensures is { result ≡ count_of moment.now.before.now }
    ensures room { result ≤ length moment.now.before.now }
{
    moment.tally.starts
}

/// A number from 1 on below which all transactions have ended by then.
pub fn unsettled_at(moment: &Moment<'_, '_>) -> u64
    ensures some { 1 ≤ result }
    ensures ended { (g : OneGxid) → 1 ≤ g.0 → g.0 < result → has_ended moment.now.before.now g ≡ true }
{
    let number = moment.tally.unsettled;
    if number == 0 { 1 } else { number }
}

/// Whether the transaction has aborted by then.
pub fn is_aborted_at(moment: &Moment<'_, '_>, gxid: Gxid) -> bool
    ensures { result ≡ has_aborted moment.now.before.now gxid }
{
    moment.tally.aborted.contains(&gxid)
}

/// Whether it has ended by then.
pub fn is_ended_at(moment: &Moment<'_, '_>, gxid: Gxid) -> bool
    ensures { result ≡ has_ended moment.now.before.now gxid }
{
    moment.tally.committed.contains(&gxid) || moment.tally.aborted.contains(&gxid)
}
