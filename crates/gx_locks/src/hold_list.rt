ghost use Rattle.std.specs.Prelude.{◌≡◌, ◌<◌, ◌+◌, ◌≤◌, ◌++◌, ◌∷◌, [], ◌==◌, length, filter, not, IfOk, OnOk, OnErr};
ghost use Rattle.std.specs.Vec.{vec_capacity};
ghost use Rattle.gx_locks.specs.Holds.{same_hold};
ghost use Rattle.gx_locks.specs.HoldLists.{held};

use crate::claims::is_same_hold;
use crate::hold::Hold;
use crate::pair::Pair;
use gx_ids::{Mem, OutOfMemory};
use std::alloc::Global;
use std::slice;

/// Holds in the order in which they came. One or two take no memory.
#[derive(Drop)]
pub enum HoldList {
    Empty,
    One(Hold),
    Two(Pair),
    Many(Vec<Hold>),
}

// They as a list, with room for more.
fn listed(alloc: Global, holds: &[Hold], more: usize) -> Mem<Vec<Hold>>
    ensures items { IfOk result (λ list. list.items ≡ holds.now) }
    ensures room { IfOk result (λ list. length holds.now + more ≤ vec_capacity list) }
{
    let wanted = holds.len().checked_add(more).ok_or(OutOfMemory)?;
    let mut list = Vec::with_capacity(alloc, wanted)?;
    list.extend_from_slice(holds)?;
    Ok(list)
}

// Takes a hold out of a list.
fn strike_from(holds: &mut Vec<Hold>, hold: &Hold)
    ensures items { holds.new.items ≡ filter (λ other. not (same_hold hold.now other)) holds.old.items }
    ensures length { length holds.new.items ≤ length holds.old.items }
    ensures capacity { vec_capacity holds.new ≡ vec_capacity holds.old }
{
    holds.retain(|other| !is_same_hold(hold, other));
}

// Those of two holds that aren't this one.
fn others_of_two(hold: &Hold, first: Hold, second: Hold) -> HoldList
    ensures { held result ≡ filter (λ other. not (same_hold hold.now other)) (first ∷ second ∷ []) }
{
    match (is_same_hold(hold, &first), is_same_hold(hold, &second)) {
        (true, true) => HoldList::Empty,
        (true, false) => HoldList::One(second),
        (false, true) => HoldList::One(first),
        (false, false) => HoldList::Two(Pair::new(first, second)),
    }
}

impl HoldList {
    ghost use Rattle.gx_locks.specs.HoldLists.{held, spare};

    pub fn as_slice(&self) -> &[Hold]
        ensures { result.now ≡ held self.now }
    {
        match self {
            HoldList::Empty => &[],
            HoldList::One(hold) => slice::from_ref(hold),
            HoldList::Two(pair) => pair.as_slice(),
            HoldList::Many(holds) => holds.as_slice(),
        }
    }

    pub(crate) fn is_empty(&self) -> bool
        ensures { result ≡ (length (held self.now) == 0) }
    {
        self.as_slice().is_empty()
    }

    // Makes room for so many more.
    pub(crate) fn reserve(&mut self, alloc: Global, more: usize) -> Mem<()>
        ensures held { held self.new ≡ held self.old }
        ensures ok { OnOk result (more ≤ spare self.new) }
        ensures spare { spare self.old ≤ spare self.new }
    {
        if let HoldList::Many(holds) = self {
            holds.reserve(more)?;
            return Ok(());
        }
        let list = listed(alloc, self.as_slice(), more)?;
        *self = HoldList::Many(list);
        Ok(())
    }

    // Adds a hold, for which there is room.
    pub(crate) fn fill(&mut self, hold: Hold)
        requires { 0 < spare self.old }
        ensures held { held self.new ≡ held self.old ++ hold ∷ [] }
        ensures spare { spare self.new + 1 ≡ spare self.old }
    {
        match self {
            HoldList::Many(holds) => holds.push_reserved(hold),
            _ => unreachable!(),
        }
    }

    // Adds a hold, beside room that is kept for so many more.
    pub(crate) fn add(&mut self, alloc: Global, hold: Hold, kept: usize) -> Mem<()>
        requires { kept ≤ spare self.old }
        ensures ok { OnOk result (held self.new ≡ held self.old ++ hold ∷ []) }
        ensures err { OnErr result (held self.new ≡ held self.old) }
        ensures spare { kept ≤ spare self.new }
    {
        match self {
            HoldList::Empty => *self = HoldList::One(hold),
            HoldList::One(first) => *self = HoldList::Two(Pair::new(*first, hold)),
            _ => self.add_more(alloc, hold, kept)?,
        }
        Ok(())
    }

    fn add_more(&mut self, alloc: Global, hold: Hold, kept: usize) -> Mem<()>
        requires { kept ≤ spare self.old }
        ensures ok { OnOk result (held self.new ≡ held self.old ++ hold ∷ []) }
        ensures err { OnErr result (held self.new ≡ held self.old) }
        ensures spare { kept ≤ spare self.new }
    {
        let more = kept.checked_add(1).ok_or(OutOfMemory)?;
        self.reserve(alloc, more)?;
        self.fill(hold);
        Ok(())
    }

    // Takes out a hold.
    pub(crate) fn strike(&mut self, hold: &Hold)
        ensures held { held self.new ≡ filter (λ other. not (same_hold hold.now other)) (held self.old) }
        ensures spare { spare self.old ≤ spare self.new }
    {
        match self {
            HoldList::Empty => {}
            HoldList::One(other) => {
                if is_same_hold(hold, other) {
                    *self = HoldList::Empty;
                }
            }
            HoldList::Two(pair) => {
                let (first, second) = pair.parts();
                *self = others_of_two(hold, first, second);
            }
            HoldList::Many(holds) => strike_from(holds, hold),
        }
    }
}
