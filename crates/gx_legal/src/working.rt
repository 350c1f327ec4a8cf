// Whether a command under way may do something.
ghost use Rattle.std.specs.Prelude.{◌≡◌, ◌↔◌, ◌<◌, IfOk, IsTrue};
ghost use Rattle.gx_store.specs.Language.{IsScript};
ghost use Rattle.gx_legal.specs.Deeds.{IsByCommand, IsByCommandOf, doing_of};
ghost use Rattle.gx_legal.specs.Moments.{point_of};

use crate::acting::may;
use crate::commands::{command_under_way, level_at};
use crate::deed::Deed;
use crate::moment::Moment;
use gx_ids::{Mem, SessionId};
use std::alloc::Global;

/// The session at this place.
pub fn session_at(place: usize) -> SessionId
    requires { place < 64 }
    ensures { result ≡ record { 0 = place } }
{
    SessionId(place as u8)
}

fn is_by_command_of(
    alloc: Global,
    moment: &Moment<'_, '_>,
    deed: &Deed<'_>,
    session: SessionId,
) -> Mem<bool>
    requires { IsScript moment.now.script.now }
    ensures { IfOk result (λ is. IsTrue is ↔ IsByCommandOf moment.now.script.now (point_of moment.now) (doing_of deed.now) session) }
{
    match command_under_way(moment, session, deed.gxid, deed.cid) {
        Some(stmt) => may(alloc, moment.script, deed, stmt, level_at(moment, session)),
        None => Ok(false),
    }
}

/// Whether some session's command under way may do it.
pub fn is_by_command(alloc: Global, moment: &Moment<'_, '_>, deed: &Deed<'_>) -> Mem<bool>
    requires { IsScript moment.now.script.now }
    ensures { IfOk result (λ is. IsTrue is ↔ IsByCommand moment.now.script.now (point_of moment.now) (doing_of deed.now)) }
{
    for place in 0..moment.script.sessions.len() {
        if is_by_command_of(alloc, moment, deed, session_at(place))? {
            return Ok(true);
        }
    }
    Ok(false)
}
