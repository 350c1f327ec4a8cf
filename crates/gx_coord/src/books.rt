// What is known of a transaction and of a session, and how it changes.
ghost use Rattle.std.specs.Prelude.{◌≡◌, ◌<◌, length, option_map, OnOk};
ghost use Rattle.std.specs.Option.{option_copied};
ghost use Rattle.gx_rules.specs.Coordinators.{no_work, with_session, with_state, with_work};
ghost use Rattle.gx_coord.specs.Books.{IsFramed, command_of, coord_of, session_of as session_data, work_of};

use crate::coord::Coord;
use crate::work::{Command, Session, Spare, Work};
use gx_entries::{find, put, take_out};
use gx_ids::{Gxid, Mem, SessionId};
use gx_script::SessionState;

// What is known of a transaction.
pub(crate) fn set_work(coord: &mut Coord, gxid: Gxid, work: Work) -> Mem<()>
    ensures framed { OnOk result (IsFramed coord.old coord.new) }
    ensures coord { OnOk result (coord_of coord.new ≡ with_work (coord_of coord.old) gxid (work_of coord.old.script.value.lines work)) }
{
    put(&mut coord.works, gxid, work)?;
    Ok(())
}

pub(crate) fn forget_work(coord: &mut Coord, gxid: Gxid)
    ensures framed { IsFramed coord.old coord.new }
    ensures coord { coord_of coord.new ≡ with_work (coord_of coord.old) gxid no_work }
{
    match take_out(&mut coord.works, gxid) {
        Some(work) => keep_spare(&mut coord.spare, work),
        None => {}
    }
}

// The lists of a command that is over are spare.
fn keep_spare(spare: &mut Spare, work: Work) {
    let Work { command, .. } = work;
    match command {
        Some(command) => spare.keep(command),
        None => {}
    }
}

// The command of a transaction that is under way.
pub(crate) fn find_command(coord: &Coord, gxid: Gxid) -> Option<&Command>
    ensures { option_map (command_of coord.now.script.value.lines) (option_copied result) ≡ ((coord_of coord.now).works gxid.0).command }
{
    match find(coord.works.as_slice(), gxid) {
        Some(work) => work.command.as_ref(),
        None => None,
    }
}

// The session of this number; where the script has none, one that has done nothing.
pub(crate) fn find_session(coord: &Coord, id: SessionId) -> Session
    ensures { session_data result ≡ (coord_of coord.now).sessions id.0 }
{
    match coord.sessions.as_slice().get(usize::from(id.0)) {
        Some(session) => *session,
        None => Session {
            state: SessionState::new(),
            lines: 0,
            transaction: Gxid(0),
        },
    }
}

pub(crate) fn set_session(coord: &mut Coord, id: SessionId, session: Session)
    requires { id.0 < length coord.old.sessions.items }
    ensures framed { IsFramed coord.old coord.new }
    ensures coord { coord_of coord.new ≡ with_session (coord_of coord.old) id (session_data session) }
{
    coord.sessions[usize::from(id.0)] = session;
}

pub(crate) fn set_state(coord: &mut Coord, id: SessionId, state: SessionState)
    requires { id.0 < length coord.old.sessions.items }
    ensures framed { IsFramed coord.old coord.new }
    ensures coord { coord_of coord.new ≡ with_state (coord_of coord.old) id state }
{
    coord.sessions[usize::from(id.0)].state = state;
}
