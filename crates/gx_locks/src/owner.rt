ghost use Rattle.std.specs.Prelude.{◌≡◌, ◌≢◌, ◌&&◌, [], None, not, true, position};
ghost use Rattle.gx_ids.specs.declared.ids.Gxid.{Gxid};
ghost use Rattle.gx_locks.specs.Owners.{is_idle, is_owner, owner_in};

use crate::shelf::Shelf;
use gx_ids::Gxid;

/// The record of a transaction: what it holds, and who holds or waits for its end. One that isn't live is free for
/// another transaction.
#[derive(Drop)]
pub struct Owner {
    pub is_live: bool,
    pub gxid: Gxid,
    pub holds: Shelf,
    pub end: Shelf,
}

impl Owner {
    pub fn new(gxid: Gxid) -> Owner
        ensures { result ≡ record { is_live = true; gxid = gxid; holds = record { holds = []; places = 0 }; end = record { holds = []; places = 0 } } }
    {
        Owner {
            is_live: true,
            gxid,
            holds: Shelf::new(),
            end: Shelf::new(),
        }
    }

    /// Whether nothing is held and nothing may come.
    pub fn is_idle(&self) -> bool
        ensures { result ≡ (is_idle self.now.holds && is_idle self.now.end) }
    {
        self.holds.is_idle() && self.end.is_idle()
    }
}

// Where the record of a transaction stands.
pub(crate) fn place_of(owners: &[Owner], gxid: Gxid) -> Option<usize>
    ensures { result ≡ position (is_owner gxid) owners.now }
{
    owners
        .iter()
        .position(|owner| owner.is_live && owner.gxid == gxid)
}

// Where a free record stands.
pub(crate) fn free_place(owners: &[Owner]) -> Option<usize>
    ensures { result ≡ position (λ owner. not owner.is_live) owners.now }
{
    owners.iter().position(|owner| !owner.is_live)
}

// Frees the record of a transaction.
pub(crate) fn free(owners: &mut Vec<Owner>, gxid: Gxid)
    ensures gone { owner_in owners.new.items gxid ≡ None }
    ensures others { (g : Gxid) → g ≢ gxid → owner_in owners.new.items g ≡ owner_in owners.old.items g }
{
    while let Some(place) = place_of(owners.as_slice(), gxid) {
        owners[place].is_live = false;
    }
}
