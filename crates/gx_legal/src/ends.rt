// Whether a transaction may commit or abort.
ghost use Rattle.std.specs.Prelude.{◌≡◌, ◌↔◌, ◌<◌, IsTrue};
ghost use Rattle.gx_store.specs.Language.{IsScript};
ghost use Rattle.gx_store.specs.Legal.{AbortsAtEnd, LegalAbort, LegalCommit};
ghost use Rattle.gx_legal.specs.Ends.{EndsByLine, EndsIn, EndsWith, may_end as can_end};
ghost use Rattle.gx_legal.specs.Moments.{point_of};
ghost use Rattle.gx_legal.specs.Standings.{state_in};

use crate::counts::is_answered;
use crate::lines::{is_in, line_under_way, may_abort, may_commit};
use crate::moment::Moment;
use crate::seats::{is_ended_at, standing_at};
use crate::standing::Block;
use crate::working::session_at;
use gx_ids::{Gxid, SessionId};
use gx_store::Event;
use gx_tree::Stmt;

/// How a transaction ends.
#[derive(Clone, Copy)]
pub enum End {
    Commit,
    Abort,
}

fn may_end(how: End, block: Block, line: &Stmt) -> bool
    ensures { result ≡ can_end how (state_in block) line.now }
{
    match how {
        End::Commit => may_commit(block, line),
        End::Abort => may_abort(block, line),
    }
}

fn ends_with(moment: &Moment<'_, '_>, gxid: Gxid, how: End, session: SessionId, line: &Stmt) -> bool
    ensures { IsTrue result ↔ EndsWith moment.now.script.now (point_of moment.now) gxid how session line.now }
{
    is_in(moment, session, gxid)
        && may_end(how, standing_at(moment, session).block, line)
        && is_answered(session, moment.later)
}

fn ends_in(moment: &Moment<'_, '_>, gxid: Gxid, how: End, session: SessionId) -> bool
    ensures { IsTrue result ↔ EndsIn moment.now.script.now (point_of moment.now) gxid how session }
{
    if !is_in(moment, session, gxid) {
        return false;
    }
    match line_under_way(moment, session) {
        Some(line) => ends_with(moment, gxid, how, session, line),
        None => false,
    }
}

// With the line of some session.
fn ends_by_line(moment: &Moment<'_, '_>, gxid: Gxid, how: End) -> bool
    requires { IsScript moment.now.script.now }
    ensures { IsTrue result ↔ EndsByLine moment.now.script.now (point_of moment.now) gxid how }
{
    for place in 0..moment.script.sessions.len() {
        if ends_in(moment, gxid, how, session_at(place)) {
            return true;
        }
    }
    false
}

// With the end of its session.
fn aborts_at_end(moment: &Moment<'_, '_>, gxid: Gxid) -> bool
    ensures { IsTrue result ↔ AbortsAtEnd moment.now.script.now (point_of moment.now) gxid }
{
    match moment.event {
        Event::End(session) => is_in(moment, session, gxid),
        _ => false,
    }
}

/// Whether the transaction may commit.
pub fn is_legal_commit(moment: &Moment<'_, '_>, gxid: Gxid) -> bool
    requires { IsScript moment.now.script.now }
    ensures { IsTrue result ↔ LegalCommit moment.now.script.now (point_of moment.now) gxid }
{
    !is_ended_at(moment, gxid) && ends_by_line(moment, gxid, End::Commit)
}

/// Whether the transaction may abort.
pub fn is_legal_abort(moment: &Moment<'_, '_>, gxid: Gxid) -> bool
    requires { IsScript moment.now.script.now }
    ensures { IsTrue result ↔ LegalAbort moment.now.script.now (point_of moment.now) gxid }
{
    !is_ended_at(moment, gxid)
        && (ends_by_line(moment, gxid, End::Abort) || aborts_at_end(moment, gxid))
}
