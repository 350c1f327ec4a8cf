// The groups of a script, of which nothing was asked yet.
ghost use Rattle.std.specs.Prelude.{◌≡◌, ◌≤◌, IfOk, length, map};
ghost use Rattle.gx_groups.specs.Slots.{has};
ghost use Rattle.gx_store.specs.Groups as of;
ghost use Rattle.gx_store.specs.Language.{IsScript};
ghost use Rattle.gx_store.specs.Schedule.{sessions_of};

use gx_groups::Groups;
use gx_ids::{Mem, SessionId};
use gx_script::{Script, SlotGroup};
use std::alloc::Global;

fn is_among(sessions: &[SessionId], session: SessionId) -> bool
    ensures { result ≡ has session sessions.now }
{
    for other in sessions {
        if *other == session {
            return true;
        }
    }
    false
}

// The place of a session's group.
fn place_in(groups: &[SlotGroup], session: SessionId) -> Option<u8>
    requires { length groups.now ≤ 64 }
    ensures { result ≡ of.place_in session groups.now }
{
    for place in 0..groups.len() {
        if is_among(groups[place].sessions.as_slice(), session) {
            return Some(place as u8);
        }
    }
    None
}

fn limits_of(alloc: Global, groups: &[SlotGroup]) -> Mem<Vec<u64>>
    ensures { IfOk result (λ limits. limits.items ≡ map of.group_limit groups.now) }
{
    let limits: Vec<u64> = groups.iter().map(|group| group.limit).collect(alloc)?;
    Ok(limits)
}

fn places_of(alloc: Global, script: &Script) -> Mem<Vec<Option<u8>>>
    requires { IsScript script.now }
    ensures { IfOk result (λ places. places.items ≡ map (λ s. of.place_in s script.now.groups) (sessions_of script.now)) }
{
    let mut places = Vec::with_capacity(alloc, script.sessions.len())?;
    for number in 0..script.sessions.len() {
        places.push(place_in(script.groups.as_slice(), SessionId(number as u8)))?;
    }
    Ok(places)
}

pub(crate) fn fresh_groups(alloc: Global, script: &Script) -> Mem<Groups>
    requires { IsScript script.now }
    ensures { IfOk result (λ groups. groups ≡ of.fresh_slots script.now) }
{
    let limits = limits_of(alloc, script.groups.as_slice())?;
    let places = places_of(alloc, script)?;
    Groups::new(alloc, limits.as_slice(), places.as_slice())
}
