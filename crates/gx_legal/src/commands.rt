// The command that a session has under way.
ghost use Rattle.std.specs.Prelude.{◌≡◌, ◌↔◌, IsTrue, Some};
ghost use Rattle.std.specs.Option.{option_copied};
ghost use Rattle.gx_tree.specs.declared.stmt.Level.{Level as OneLevel};
ghost use Rattle.gx_tree.specs.declared.stmt.Stmt.{Stmt as OneStmt};
ghost use Rattle.gx_store.specs.Commands.{IsUnderWay, state_at};
ghost use Rattle.gx_store.specs.Lines.{level_of};
ghost use Rattle.gx_legal.specs.Commands.{IsCommandOf};
ghost use Rattle.gx_legal.specs.Moments.{point_of};

use crate::lines::{is_command, is_in, is_number_in, level_in, line_under_way};
use crate::moment::Moment;
use crate::seats::{is_ended_at, standing_at};
use gx_ids::{Cid, Gxid, SessionId};
use gx_tree::{Level, Stmt};

/// The level at which the session's line runs.
pub fn level_at(moment: &Moment<'_, '_>, session: SessionId) -> Level
    ensures { result ≡ level_of (state_at moment.now.script.now session (point_of moment.now)) }
{
    level_in(standing_at(moment, session).block)
}

// Whether the line is the command of this number in this transaction, which has not ended.
fn is_command_of(
    moment: &Moment<'_, '_>,
    session: SessionId,
    stmt: &Stmt,
    gxid: Gxid,
    cid: Cid,
) -> bool
    ensures { IsTrue result ↔ IsCommandOf moment.now.script.now (point_of moment.now) session stmt.now gxid cid }
{
    let block = standing_at(moment, session).block;
    is_command(block, stmt)
        && is_in(moment, session, gxid)
        && is_number_in(block, cid)
        && !is_ended_at(moment, gxid)
}

/// The statement of the session's line under way, where it is the command of this number in this transaction, which has not ended.
pub fn command_under_way<'a>(
    moment: &Moment<'a, '_>,
    session: SessionId,
    gxid: Gxid,
    cid: Cid,
) -> Option<&'a Stmt>
    ensures { (stmt : OneStmt) (level : OneLevel) → IsUnderWay moment.now.script.now (point_of moment.now) session stmt level gxid cid
        ↔ ((option_copied result ≡ Some stmt) × (level ≡ level_of (state_at moment.now.script.now session (point_of moment.now)))) }
{
    if !is_in(moment, session, gxid) {
        return None;
    }
    let Some(stmt) = line_under_way(moment, session) else {
        return None;
    };
    if is_command_of(moment, session, stmt, gxid, cid) {
        Some(stmt)
    } else {
        None
    }
}
