// The groups and the seats of which nothing was asked yet.
ghost use Rattle.std.specs.Prelude.{◌≡◌, ◌≤◌, ◌^◌, IfOk, length, map, replicate};
ghost use Rattle.gx_groups.specs.Table.{fresh_groups, new_seat};
ghost use Rattle.gx_groups.specs.declared.seat.Standing.TheVariants.{Idle};

use crate::group::Group;
use crate::members::members;
use crate::seat::{Seat, Standing};
use gx_ids::Mem;
use std::alloc::Global;

pub(crate) fn new_groups(alloc: Global, limits: &[u64], of: &[Option<u8>]) -> Mem<Vec<Group>>
    requires { length of.now ≤ 2 ^ 8 }
    ensures { IfOk result (λ groups. groups.items ≡ fresh_groups of.now 0 limits.now) }
{
    let mut groups = Vec::with_capacity(alloc, limits.len())?;
    for place in 0..limits.len() {
        let members = members(alloc, of, place)?;
        groups.push(Group::new(alloc, limits[place], members)?)?;
    }
    Ok(groups)
}

pub(crate) fn new_seats(alloc: Global, of: &[Option<u8>]) -> Mem<Vec<Seat>>
    ensures { IfOk result (λ seats. seats.items ≡ map new_seat of.now) }
{
    let seats: Vec<Seat> = of.iter().map(|group| first_seat(*group)).collect(alloc)?;
    Ok(seats)
}

fn first_seat(group: Option<u8>) -> Seat
    ensures { result ≡ new_seat group }
{
    match group {
        Some(place) => Seat::Grouped(place),
        None => Seat::Alone(Standing::Idle),
    }
}

pub(crate) fn new_standings(alloc: Global, sessions: usize) -> Mem<Vec<Standing>>
    ensures { IfOk result (λ standings. standings.items ≡ replicate sessions Idle) }
{
    let mut standings = Vec::with_capacity(alloc, sessions)?;
    for _session in 0..sessions {
        standings.push(Standing::Idle)?;
    }
    Ok(standings)
}
