// Groups of sessions: by names while heads are read, and by places in the script.
ghost use Rattle.std.specs.Prelude.{◌≡◌, ◌≤◌, ◌∷◌, ◌++◌, [], ℕ, IfOk, None, OnOk, Ok, is_some, length};
ghost use Rattle.gx_sql.specs.Groups as of;
ghost use Rattle.gx_sql.specs.Held.{Ends, OnFault, named};

use crate::refusal::{LineError, LineFault};
use gx_ids::{Mem, Seq, SessionId};
use gx_script::SlotGroup;
use gx_tree::Txt;
use indexmap::IndexMap;
use std::alloc::Global;

/// A group without its sessions.
#[derive(Drop)]
pub struct GroupHead {
    pub name: Txt,
    pub limit: u64,
}

/// Whether there is a group of this name.
pub fn is_group(groups: &[GroupHead], name: &[u8]) -> bool
    ensures { result ≡ of.is_group name.now groups.now }
{
    for group in groups {
        if group.name.as_slice() == name {
            return true;
        }
    }
    false
}

fn copied(alloc: Global, name: &[u8]) -> Mem<Vec<u8>>
    ensures { IfOk result (λ copy. copy.items ≡ name.now) }
{
    Ok(Vec::from_slice(alloc, name)?)
}

/// The group in which a session stands.
pub fn place_of(members: &IndexMap<Vec<u8>, u32>, name: &[u8]) -> Option<u32>
    ensures { result ≡ of.place_among name.now (named members.now.entries) }
{
    match members.get(name) {
        Some(place) => Some(*place),
        None => None,
    }
}

/// Notes the group of a session that stands in none.
fn insert_member(
    alloc: Global,
    members: &mut IndexMap<Vec<u8>, u32>,
    name: &[u8],
    place: u32,
) -> Mem<()>
    requires { of.place_among name.now (named members.old.entries) ≡ None }
    ensures { OnOk result (named members.new.entries ≡ named members.old.entries ++ (name.now, place) ∷ []) }
{
    let key = copied(alloc, name)?;
    members.insert(key, place)?;
    Ok(())
}

fn stands(members: &IndexMap<Vec<u8>, u32>, line: &IndexMap<Vec<u8>, u32>, name: &[u8]) -> bool
    ensures { result ≡ is_some (of.place_among name.now (named members.now.entries ++ named line.now.entries)) }
{
    place_of(members, name).is_some() || place_of(line, name).is_some()
}

// The same count as the next, with a map for the sessions of the line.
fn before_again(
    alloc: Global,
    line: &mut IndexMap<Vec<u8>, u32>,
    members: &IndexMap<Vec<u8>, u32>,
    names: &[Txt],
    place: u32,
) -> Mem<usize>
    requires { named line.old.entries ≡ [] }
    ensures { IfOk result (λ count. count ≡ of.before_standing place (named members.now.entries) names.now) }
{
    for count in 0..names.len() {
        let name = names[count].as_slice();
        if stands(members, line, name) {
            return Ok(count);
        }
        insert_member(alloc, line, name, place)?;
    }
    Ok(names.len())
}

// The same count of one session, for which no map is needed.
fn before_one(members: &IndexMap<Vec<u8>, u32>, name: &[u8]) -> usize
    ensures { (place : ℕ) → result ≡ of.before_standing place (named members.now.entries) (name.now ∷ []) }
{
    if place_of(members, name).is_some() {
        0
    } else {
        1
    }
}

fn before_several(
    alloc: Global,
    members: &IndexMap<Vec<u8>, u32>,
    names: &[Txt],
    place: u32,
) -> Mem<usize>
    ensures { IfOk result (λ count. count ≡ of.before_standing place (named members.now.entries) names.now) }
{
    let mut line = IndexMap::new(alloc);
    let count = before_again(alloc, &mut line, members, names, place);
    drop(line);
    count
}

/// How many sessions of a group at a place stand before the first that stands in a group already, or before in its line.
pub fn before_standing(
    alloc: Global,
    members: &IndexMap<Vec<u8>, u32>,
    names: &[Txt],
    place: u32,
) -> Mem<usize>
    ensures { IfOk result (λ count. count ≡ of.before_standing place (named members.now.entries) names.now) }
{
    match names {
        [name] => Ok(before_one(members, name.as_slice())),
        _ => before_several(alloc, members, names, place),
    }
}

fn add_member(
    alloc: Global,
    members: &mut IndexMap<Vec<u8>, u32>,
    name: &[u8],
    place: u32,
) -> Result<(), LineError>
    ensures { Ends result (named members.new.entries) (of.with_member place name.now (named members.old.entries)) }
{
    if place_of(members, name).is_some() {
        return Err(LineError::Fault(LineFault::Syntax));
    }
    insert_member(alloc, members, name, place)?;
    Ok(())
}

// Adds the sessions of the group at a place up to the first that stands in a group already.
fn join_members(
    alloc: Global,
    members: &mut IndexMap<Vec<u8>, u32>,
    names: &[Txt],
    place: u32,
) -> Result<(), LineError>
    ensures { Ends result (named members.new.entries) (of.with_members place names.now (Ok (named members.old.entries))) }
{
    for name in names {
        match add_member(alloc, members, name.as_slice(), place) {
            Ok(()) => {}
            Err(error) => return Err(error),
        }
    }
    Ok(())
}

/// Adds the sessions of the group at a place, or says that one stands in a group already.
pub(crate) fn add_members(
    alloc: Global,
    members: &mut IndexMap<Vec<u8>, u32>,
    names: &[Txt],
    place: u32,
) -> Result<(), LineError>
    ensures said { Ends result (named members.new.entries) (of.with_members place names.now (Ok (named members.old.entries))) }
    ensures kept { OnFault result (members.new ≡ members.old) }
{
    let free = before_standing(alloc, members, names, place)?;
    if free < names.len() {
        return Err(LineError::Fault(LineFault::Syntax));
    }
    join_members(alloc, members, names, place)
}

fn is_at(place: usize, at: Option<u32>) -> bool
    ensures { result ≡ of.is_at place at }
{
    match at {
        Some(at) => at as usize == place,
        None => false,
    }
}

/// The places of the groups in which the sessions of these names stand.
fn places_of(
    alloc: Global,
    members: &IndexMap<Vec<u8>, u32>,
    names: &[Txt],
) -> Mem<Vec<Option<u32>>>
    ensures { IfOk result (λ places. places.items ≡ of.places_among (named members.now.entries) names.now) }
{
    let mut places = Vec::with_capacity(alloc, names.len())?;
    for name in names {
        places.push(place_of(members, name.as_slice()))?;
    }
    Ok(places)
}

/// The sessions that stand in the group at a place, by the places of all.
fn sessions_at(alloc: Global, places: &[Option<u32>], place: usize) -> Mem<Seq<SessionId>>
    requires { length places.now ≤ 64 }
    ensures { IfOk result (λ sessions. sessions ≡ of.sessions_by place 0 places.now) }
{
    let mut sessions = Vec::new(alloc);
    for number in 0..places.len() {
        if is_at(place, places[number]) {
            sessions.push(SessionId(number as u8))?;
        }
    }
    Ok(Seq::from_vec(sessions))
}

fn group_at(
    alloc: Global,
    group: &GroupHead,
    places: &[Option<u32>],
    place: usize,
) -> Mem<SlotGroup>
    requires { length places.now ≤ 64 }
    ensures { IfOk result (λ made. made ≡ record { name = group.now.name; limit = group.now.limit; sessions = of.sessions_by place 0 places.now }) }
{
    let name = copied(alloc, group.name.as_slice())?;
    let sessions = sessions_at(alloc, places, place)?;
    Ok(SlotGroup {
        name: Txt::from_vec(name),
        limit: group.limit,
        sessions,
    })
}

fn groups_by(alloc: Global, groups: &[GroupHead], places: &[Option<u32>]) -> Mem<Seq<SlotGroup>>
    requires { length places.now ≤ 64 }
    ensures { IfOk result (λ made. made ≡ of.groups_by places.now 0 groups.now) }
{
    let mut made = Vec::new(alloc);
    for place in 0..groups.len() {
        made.push(group_at(alloc, &groups[place], places, place)?)?;
    }
    Ok(Seq::from_vec(made))
}

/// The groups with those of their sessions that have lines.
pub(crate) fn all_groups(
    alloc: Global,
    groups: &[GroupHead],
    members: &IndexMap<Vec<u8>, u32>,
    names: &[Txt],
) -> Mem<Seq<SlotGroup>>
    requires { length names.now ≤ 64 }
    ensures { IfOk result (λ made. made ≡ of.groups_from (named members.now.entries) names.now 0 groups.now) }
{
    let places = places_of(alloc, members, names)?;
    let made = groups_by(alloc, groups, places.as_slice())?;
    Ok(made)
}
