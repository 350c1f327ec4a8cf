ghost use Rattle.std.specs.Prelude.{◌≡◌, ◌≤◌, ◌^◌, true, false, All, IfOk, length, map};

use crate::group::Group;
use crate::making::{new_groups, new_seats, new_standings};
use crate::seat::{Seat, Standing, is_asking, is_holding, note, seat_of, stand, standing_of};
use gx_ids::{Mem, SessionId};
use std::alloc::Global;
use std::marker::Model;

/// The slots of all resource groups. A session asks for a slot before its transaction begins, takes one once it may, and
/// gives it back at its transaction's end; a session without a group does the same, and may at once.
#[derive(Drop)]
pub struct Groups {
    groups: Vec<Group>,
    seats: Vec<Seat>,
    // What each session does, so that nobody looks it up in its group's lists.
    standings: Vec<Standing>,
}

impl Model for Groups {
    ghost use Rattle.gx_groups.specs.Table.{Table, IsWhole};
    ghost use Rattle.gx_groups.specs.Standings.{AreNoted};

    ghost Value = { Table };

    ghost view = { λ a. record { groups = a.groups.items; seats = a.seats.items } };

    ghost invariant = { λ a. IsWhole a.groups.items a.seats.items × AreNoted a.groups.items a.seats.items a.standings.items };
}

impl Groups {
    ghost use Rattle.gx_groups.specs.Table.{IsWithin, KeepsLimit, fresh_groups, new_seat, is_known, asks, first_asker, holds, may, after_ask, after_take, after_give};

    /// The groups of these limits, of which `of` tells the place for each session by its number; none where it has no
    /// group. This call makes the room for every session to ask: no other takes memory.
    pub fn new(alloc: Global, limits: &[u64], of: &[Option<u8>]) -> Mem<Groups>
        requires within { All (IsWithin (length limits.now)) of.now }
        requires numbers { length of.now ≤ 2 ^ 8 }
        ensures groups { IfOk result (λ table. table.groups ≡ fresh_groups of.now 0 limits.now) }
        ensures seats { IfOk result (λ table. table.seats ≡ map new_seat of.now) }
    {
        let groups = new_groups(alloc, limits, of)?;
        let seats = new_seats(alloc, of)?;
        let standings = new_standings(alloc, of.len())?;
        Ok(Groups {
            groups,
            seats,
            standings,
        })
    }

    /// A session asks for a slot.
    pub fn ask(&mut self, session: SessionId)
        requires known { is_known self.old session ≡ true }
        requires not_asking { asks self.old session ≡ false }
        requires no_slot { holds self.old session ≡ false }
        ensures { self.new ≡ after_ask self.old session }
    {
        let seat = seat_of(&self.seats, session);
        note(&mut self.standings, session, Standing::Asking);
        match seat {
            Seat::Grouped(place) => self.groups[usize::from(place)].ask(session),
            Seat::Alone(_) => stand(&mut self.seats, session, Standing::Asking),
        }
    }

    /// Whether there is such a session.
    pub fn knows(&self, session: SessionId) -> bool
        ensures { result ≡ is_known self.now session }
    {
        usize::from(session.0) < self.seats.len()
    }

    /// Whether a session asks for a slot.
    pub fn asks(&self, session: SessionId) -> bool
        ensures { result ≡ asks self.now session }
    {
        is_asking(standing_of(&self.standings, session))
    }

    /// Whether a session holds a slot.
    pub fn holds(&self, session: SessionId) -> bool
        ensures { result ≡ holds self.now session }
    {
        is_holding(standing_of(&self.standings, session))
    }

    /// Who of a session's group asked before all others of it that ask; nobody where it has no group.
    pub fn first_asker(&self, session: SessionId) -> Option<SessionId>
        ensures { result ≡ first_asker self.now session }
    {
        match self.seats.get(usize::from(session.0)) {
            Some(Seat::Grouped(place)) => self.groups[usize::from(*place)].first(),
            _ => None,
        }
    }

    /// Whether a session may take a slot.
    pub fn may(&self, session: SessionId) -> bool
        ensures { result ≡ may self.now session }
    {
        match self.seats.get(usize::from(session.0)) {
            Some(Seat::Grouped(place)) => self.groups[usize::from(*place)].lets(session),
            Some(Seat::Alone(standing)) => *standing == Standing::Asking,
            None => false,
        }
    }

    /// A session takes a slot.
    pub fn take(&mut self, session: SessionId)
        requires { may self.old session ≡ true }
        ensures { self.new ≡ after_take self.old session }
    {
        let seat = seat_of(&self.seats, session);
        note(&mut self.standings, session, Standing::Holding);
        match seat {
            Seat::Grouped(place) => self.groups[usize::from(place)].take(session),
            Seat::Alone(_) => stand(&mut self.seats, session, Standing::Holding),
        }
    }

    /// A session gives its slot back.
    pub fn give(&mut self, session: SessionId)
        requires { holds self.old session ≡ true }
        ensures { self.new ≡ after_give self.old session }
    {
        let seat = seat_of(&self.seats, session);
        note(&mut self.standings, session, Standing::Idle);
        match seat {
            Seat::Grouped(place) => self.groups[usize::from(place)].give(session),
            Seat::Alone(_) => stand(&mut self.seats, session, Standing::Idle),
        }
    }
}
