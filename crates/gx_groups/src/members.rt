// Lists of sessions.
ghost use Rattle.std.specs.Prelude.{◌≡◌, ◌≤◌, ◌<◌, ◌^◌, true, length, IfOk, slice_get, Some, Option};
ghost use Rattle.std.specs.Vec.{vec_capacity};
ghost use Rattle.gx_groups.specs.Slots.{has, without};
ghost use Rattle.gx_groups.specs.Table.{is_in, members_of};

use gx_ids::{Mem, SessionId};
use std::alloc::Global;

// Takes a session out of a list.
pub(crate) fn take_out(sessions: &mut Vec<SessionId>, session: SessionId)
    ensures items { sessions.new.items ≡ without session sessions.old.items }
    ensures shorter { has session sessions.old.items ≡ true → length sessions.new.items < length sessions.old.items }
    ensures capacity { vec_capacity sessions.new ≡ vec_capacity sessions.old }
{
    sessions.retain(|other| *other != session);
}

// The sessions of the group at a place.
pub(crate) fn members(alloc: Global, of: &[Option<u8>], place: usize) -> Mem<Vec<SessionId>>
    requires { length of.now ≤ 2 ^ 8 }
    ensures { IfOk result (λ members. members.items ≡ members_of place 0 of.now) }
{
    let mut members = Vec::new(alloc);
    for session in 0..of.len() {
        if is_at(of[session], place) {
            members.push(SessionId(session as u8))?;
        }
    }
    Ok(members)
}

fn is_at(group: Option<u8>, place: usize) -> bool
    ensures { result ≡ is_in place group }
{
    match group {
        Some(at) => usize::from(at) == place,
        None => false,
    }
}
