ghost use Rattle.std.specs.Prelude.{◌≡◌, true, IfOk};
ghost use Rattle.gx_groups.specs.Slots.{asked, first_in, fresh, given, has, lets, taken};

use crate::members::take_out;
use gx_ids::{Mem, SessionId};
use std::alloc::Global;
use std::marker::Model;

/// A group of sessions, each of which holds a slot, asks for one, or does neither. There is room for any of them to do
/// any of these.
#[derive(Drop)]
pub struct Group {
    limit: u64,
    holders: Vec<SessionId>,
    askers: Vec<SessionId>,
    idle: Vec<SessionId>,
}

impl Model for Group {
    ghost use Rattle.std.specs.Prelude.{length};
    ghost use Rattle.std.specs.Vec.{vec_capacity};
    ghost use Rattle.gx_groups.specs.Slots.{Slots, HasRoom};

    ghost Value = { Slots };

    ghost view = { λ a. record { limit = a.limit; holders = a.holders.items; askers = a.askers.items; idle = a.idle.items } };

    ghost invariant = { λ a. HasRoom (length a.holders.items) (length a.askers.items) (length a.idle.items) (vec_capacity a.holders) (vec_capacity a.askers) (vec_capacity a.idle) };
}

impl Group {
    /// A group whose sessions are all idle.
    pub fn new(alloc: Global, limit: u64, members: Vec<SessionId>) -> Mem<Group>
        ensures { IfOk result (λ group. group ≡ fresh limit members.items) }
    {
        let holders = Vec::with_capacity(alloc, members.len())?;
        let askers = Vec::with_capacity(alloc, members.len())?;
        Ok(Group {
            limit,
            holders,
            askers,
            idle: members,
        })
    }

    /// An idle session asks for a slot.
    pub fn ask(&mut self, session: SessionId)
        requires { has session self.old.idle ≡ true }
        ensures { self.new ≡ asked self.old session }
    {
        take_out(&mut self.idle, session);
        self.askers.push_reserved(session);
    }

    /// Whether a session may take a slot: one is free, and it asks and nobody asked before it.
    pub fn lets(&self, session: SessionId) -> bool
        ensures { result ≡ lets self.now session }
    {
        match self.askers.first() {
            Some(first) => *first == session && (self.holders.len() as u64) < self.limit,
            None => false,
        }
    }

    /// Who asked before all others that ask.
    pub fn first(&self) -> Option<SessionId>
        ensures { result ≡ first_in self.now.askers }
    {
        self.askers.first().copied()
    }

    /// A session takes a slot.
    pub fn take(&mut self, session: SessionId)
        requires { lets self.old session ≡ true }
        ensures { self.new ≡ taken self.old session }
    {
        self.askers.remove(0);
        self.holders.push_reserved(session);
    }

    /// A session gives its slot back.
    pub fn give(&mut self, session: SessionId)
        requires { has session self.old.holders ≡ true }
        ensures { self.new ≡ given self.old session }
    {
        take_out(&mut self.holders, session);
        self.idle.push_reserved(session);
    }
}
