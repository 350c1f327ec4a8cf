// Whether a transaction may start.
ghost use Rattle.std.specs.Prelude.{◌≡◌, ◌↔◌, ◌+◌, IsTrue};
ghost use Rattle.gx_store.specs.Legal.{LegalStart};
ghost use Rattle.gx_store.specs.Marks.{start_count as count_of};
ghost use Rattle.gx_legal.specs.Commands.{StartsWith};
ghost use Rattle.gx_legal.specs.Moments.{point_of};

use crate::counts::is_start_of;
use crate::lines::{draws, line_under_way};
use crate::moment::Moment;
use crate::seats::{standing_at, starts_at};
use gx_ids::{Gxid, SessionId};
use gx_tree::Stmt;

fn is_next(moment: &Moment<'_, '_>, gxid: Gxid) -> bool
    ensures { IsTrue result ↔ (gxid.0 ≡ count_of moment.now.before.now + 1) }
{
    gxid.0 == starts_at(moment) as u64 + 1
}

fn starts_with(moment: &Moment<'_, '_>, gxid: Gxid, session: SessionId, line: &Stmt) -> bool
    ensures { IsTrue result ↔ StartsWith moment.now.script.now (point_of moment.now) gxid session line.now }
{
    let standing = standing_at(moment, session);
    is_next(moment, gxid)
        && is_start_of(moment.event, session)
        && draws(standing.block, line)
        && !standing.begun
}

/// Whether the session may start this transaction.
pub fn is_legal_start(moment: &Moment<'_, '_>, gxid: Gxid, session: SessionId) -> bool
    ensures { IsTrue result ↔ LegalStart moment.now.script.now (point_of moment.now) gxid session }
{
    match line_under_way(moment, session) {
        Some(line) => starts_with(moment, gxid, session, line),
        None => false,
    }
}
