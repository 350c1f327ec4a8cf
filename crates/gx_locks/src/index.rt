ghost use Rattle.std.specs.Prelude.{None, is_some, IsSome, ◌≡◌, ◌≢◌, ◌<◌, ◌+◌, ◌-◌, ◌++◌, ◌∷◌, [], ◌==◌, ◌&&◌, length, true, false, ◌≤◌, filter, not, IfSome, IfNone, OnOk, OnErr, ℕ, slice_index_or, vec_len};
ghost use Rattle.std.specs.Borrow.{sem};
ghost use Rattle.gx_locks.specs.Holds.{same_hold, is_under};
ghost use Rattle.gx_locks.specs.HoldLists.{held};
ghost use Rattle.gx_locks.specs.Rack.{no_shelf};
ghost use Rattle.gx_locks.specs.Room.{bit};

use crate::hold::Hold;
use crate::hold_list::HoldList;
use crate::key::Key;
use crate::owner::{Owner, free, free_place, place_of};
use crate::shelf::Shelf;
use gx_ids::{Gxid, Mem, Rid, Table};
use gx_waits::{Claim, Object};
use std::alloc::Global;
use std::collections::HashMap;

/// The holds by object and by transaction, each list in the order in which they came. Those on tables stand by the
/// table's number: a table has its shelf for good, since the next command on it comes. Those of a transaction and those
/// on its end stand in one record, and records are few: a session has one transaction at a time.
#[derive(Drop)]
pub struct Index {
    alloc: Global,
    tables: Vec<Shelf>,
    owners: Vec<Owner>,
    others: HashMap<Key, Shelf>,
}

// Sees to it that there are so many shelves.
#[tactic(auto, using(crate::proofs::Written::pushed_empty))]
fn make_shelves(shelves: &mut Vec<Shelf>, count: usize) -> Mem<()>
    ensures same { (n : ℕ) → slice_index_or shelves.new.items n no_shelf ≡ slice_index_or shelves.old.items n no_shelf }
    ensures enough { OnOk result (count ≤ vec_len shelves.new) }
{
    while shelves.len() < count {
        shelves.push(Shelf::new())?;
    }
    Ok(())
}

impl Index {
    ghost use Rattle.gx_locks.specs.declared.key.Key.{Key};
    ghost use Rattle.gx_locks.specs.declared.key.Key.TheVariants.{On, Of};
    ghost use Rattle.gx_waits.specs.declared.object.Object.TheVariants.{Relation, Transaction, Tuple};
    ghost use Rattle.gx_locks.specs.Index.{holds_at, keeper, places_at, shelf_at, IsLeftElse, IsThere, IsTidy, IsTidyBut};
    ghost use Rattle.gx_locks.specs.Owners.{end_of, holds_of, owner_in};
    ghost use Rattle.std.specs.HashMap.{get};
    ghost use Rattle.gx_locks.specs.contracts.key.KeyPartialEq.TheImpl as block;
    ghost use Rattle.gx_locks.specs.Shelves.{LendsShelf};

    #[tactic(auto, unfolding(crate::specs::Index::IsTidy))]
    pub fn new(alloc: Global) -> Index
        ensures holds { (k : Key) → holds_at result k ≡ [] }
        ensures places { (k : Key) → places_at result k ≡ 0 }
        ensures tidy { IsTidy result }
    {
        Index {
            alloc,
            tables: Vec::new(alloc),
            owners: Vec::new(alloc),
            others: HashMap::new(alloc),
        }
    }

    // The shelf of a key, where it has one.
    fn shelf(&self, key: Key) -> Option<&Shelf>
        ensures found { IfSome result (λ shelf. shelf.now ≡ shelf_at self.now key) }
        ensures missing { IfNone result (shelf_at self.now key ≡ no_shelf) }
    {
        match key {
            Key::On(Object::Relation(table)) => self.tables.get(usize::from(table.0)),
            Key::On(Object::Tuple(_)) => self.others.get(&key),
            Key::On(Object::Transaction(gxid)) => self.end(gxid),
            Key::Of(gxid) => self.holds(gxid),
        }
    }

    // What a transaction holds.
    fn holds(&self, gxid: Gxid) -> Option<&Shelf>
        ensures found { IfSome result (λ shelf. shelf.now ≡ holds_of (owner_in self.now.owners.items gxid)) }
        ensures missing { IfNone result (owner_in self.now.owners.items gxid ≡ None) }
    {
        match place_of(self.owners.as_slice(), gxid) {
            Some(place) => Some(&self.owners[place].holds),
            None => None,
        }
    }

    // Who holds a transaction's end.
    fn end(&self, gxid: Gxid) -> Option<&Shelf>
        ensures found { IfSome result (λ shelf. shelf.now ≡ end_of (owner_in self.now.owners.items gxid)) }
        ensures missing { IfNone result (owner_in self.now.owners.items gxid ≡ None) }
    {
        match place_of(self.owners.as_slice(), gxid) {
            Some(place) => Some(&self.owners[place].end),
            None => None,
        }
    }

    fn shelf_mut(&mut self, key: Key) -> Option<&mut Shelf>
        ensures* follows { sem 𝓛 (LendsShelf self.entry key result) }
        ensures found { IfSome result (λ shelf. shelf.now ≡ shelf_at self.old key) }
        ensures missing { IfNone result (shelf_at self.old key ≡ no_shelf) }
        ensures there { IsThere self.old key → IsSome result }
    {
        match key {
            Key::On(Object::Relation(table)) => self.tables.get_mut(usize::from(table.0)),
            Key::On(Object::Tuple(_)) => self.others.get_mut(&key),
            Key::On(Object::Transaction(gxid)) => self.end_mut(gxid),
            Key::Of(gxid) => self.holds_mut(gxid),
        }
    }

    fn holds_mut(&mut self, gxid: Gxid) -> Option<&mut Shelf>
        ensures* follows { sem 𝓛 (LendsShelf self.entry (Of gxid) result) }
        ensures found { IfSome result (λ shelf. shelf.now ≡ holds_of (owner_in self.old.owners.items gxid)) }
        ensures missing { IfNone result (owner_in self.old.owners.items gxid ≡ None) }
    {
        match place_of(self.owners.as_slice(), gxid) {
            Some(place) => {
                let owner = &mut self.owners[place];
                Some(&mut owner.holds)
            }
            None => None,
        }
    }

    fn end_mut(&mut self, gxid: Gxid) -> Option<&mut Shelf>
        ensures* follows { sem 𝓛 (LendsShelf self.entry (On (Transaction gxid)) result) }
        ensures found { IfSome result (λ shelf. shelf.now ≡ end_of (owner_in self.old.owners.items gxid)) }
        ensures missing { IfNone result (owner_in self.old.owners.items gxid ≡ None) }
    {
        match place_of(self.owners.as_slice(), gxid) {
            Some(place) => {
                let owner = &mut self.owners[place];
                Some(&mut owner.end)
            }
            None => None,
        }
    }

    pub fn at(&self, key: Key) -> &[Hold]
        ensures { result.now ≡ holds_at self.now key }
    {
        match self.shelf(key) {
            Some(shelf) => shelf.holds(),
            None => &[],
        }
    }

    /// Whether there is no room for more under a key.
    pub fn is_full(&self, key: Key) -> bool
        ensures { result ≡ (places_at self.now key == 0) }
    {
        match self.shelf(key) {
            Some(shelf) => shelf.is_full(),
            None => true,
        }
    }

    /// Makes room for one hold more.
    pub fn reserve(&mut self, key: Key) -> Mem<()>
        ensures holds { (k : Key) → holds_at self.new k ≡ holds_at self.old k }
        ensures there { OnOk result (places_at self.new key ≡ places_at self.old key + 1) }
        ensures elsewhere { (k : Key) → k ≢ key → places_at self.new k ≡ places_at self.old k }
        ensures err { OnErr result (places_at self.new key ≡ places_at self.old key) }
        ensures tidy { IsTidy self.old → IsTidy self.new }
    {
        if let Err(error) = self.reserve_there(key) {
            self.tidy(key);
            return Err(error);
        }
        Ok(())
    }

    fn reserve_there(&mut self, key: Key) -> Mem<()>
        ensures holds { (k : Key) → holds_at self.new k ≡ holds_at self.old k }
        ensures there { OnOk result (places_at self.new key ≡ places_at self.old key + 1) }
        ensures elsewhere { (k : Key) → k ≢ key → places_at self.new k ≡ places_at self.old k }
        ensures err { OnErr result (places_at self.new key ≡ places_at self.old key) }
        ensures left { IsLeftElse key self.old self.new }
    {
        let alloc = self.alloc;
        self.make(key)?;
        match self.shelf_mut(key) {
            Some(shelf) => shelf.reserve(alloc),
            None => unreachable!(),
        }
    }

    /// Gives the room for one hold up.
    pub fn cancel(&mut self, key: Key)
        ensures holds { (k : Key) → holds_at self.new k ≡ holds_at self.old k }
        ensures there { places_at self.new key ≡ places_at self.old key - 1 }
        ensures elsewhere { (k : Key) → k ≢ key → places_at self.new k ≡ places_at self.old k }
        ensures tidy { IsTidy self.old → IsTidy self.new }
    {
        self.cancel_there(key);
        self.tidy(key);
    }

    fn cancel_there(&mut self, key: Key)
        ensures holds { (k : Key) → holds_at self.new k ≡ holds_at self.old k }
        ensures there { places_at self.new key ≡ places_at self.old key - 1 }
        ensures elsewhere { (k : Key) → k ≢ key → places_at self.new k ≡ places_at self.old k }
        ensures left { IsLeftElse key self.old self.new }
    {
        if let Some(shelf) = self.shelf_mut(key) {
            shelf.cancel();
        }
    }

    /// Adds a hold, for which there is room.
    pub fn fill(&mut self, key: Key, hold: Hold)
        requires { 0 < places_at self.old key }
        ensures there { holds_at self.new key ≡ holds_at self.old key ++ hold ∷ [] }
        ensures places_there { places_at self.new key + 1 ≡ places_at self.old key }
        ensures elsewhere { (k : Key) → k ≢ key → holds_at self.new k ≡ holds_at self.old k }
        ensures places_elsewhere { (k : Key) → k ≢ key → places_at self.new k ≡ places_at self.old k }
        ensures tidy { IsTidy self.old → IsTidy self.new }
    {
        match self.shelf_mut(key) {
            Some(shelf) => shelf.fill(hold),
            None => unreachable!(),
        }
    }

    // Adds a hold, beside the room that is kept for others.
    fn add(&mut self, key: Key, hold: Hold) -> Mem<()>
        ensures there { OnOk result (holds_at self.new key ≡ holds_at self.old key ++ hold ∷ []) }
        ensures elsewhere { (k : Key) → k ≢ key → holds_at self.new k ≡ holds_at self.old k }
        ensures err { OnErr result (holds_at self.new key ≡ holds_at self.old key) }
        ensures places_there { places_at self.new key ≡ places_at self.old key }
        ensures places_elsewhere { (k : Key) → k ≢ key → places_at self.new k ≡ places_at self.old k }
        ensures tidy { IsTidy self.old → IsTidy self.new }
    {
        if let Err(error) = self.add_there(key, hold) {
            self.tidy(key);
            return Err(error);
        }
        Ok(())
    }

    fn add_there(&mut self, key: Key, hold: Hold) -> Mem<()>
        ensures there { OnOk result (holds_at self.new key ≡ holds_at self.old key ++ hold ∷ []) }
        ensures elsewhere { (k : Key) → k ≢ key → holds_at self.new k ≡ holds_at self.old k }
        ensures err { OnErr result (holds_at self.new key ≡ holds_at self.old key) }
        ensures places_there { places_at self.new key ≡ places_at self.old key }
        ensures places_elsewhere { (k : Key) → k ≢ key → places_at self.new k ≡ places_at self.old k }
        ensures left { IsLeftElse key self.old self.new }
    {
        let alloc = self.alloc;
        self.make(key)?;
        match self.shelf_mut(key) {
            Some(shelf) => shelf.add(alloc, hold),
            None => unreachable!(),
        }
    }

    // Sees to it that a key has a shelf.
    fn make(&mut self, key: Key) -> Mem<()>
        ensures same { (k : Key) → shelf_at self.new k ≡ shelf_at self.old k }
        ensures there { OnOk result (IsThere self.new key) }
        ensures left { IsLeftElse key self.old self.new }
    {
        match key {
            Key::On(Object::Relation(table)) => self.make_table(table),
            Key::On(Object::Tuple(_)) => self.make_other(key),
            Key::On(Object::Transaction(gxid)) => self.make_owner(gxid),
            Key::Of(gxid) => self.make_owner(gxid),
        }
    }

    fn make_table(&mut self, table: Table) -> Mem<()>
        ensures same { (k : Key) → shelf_at self.new k ≡ shelf_at self.old k }
        ensures there { OnOk result (IsThere self.new (On (Relation table))) }
        ensures left { IsLeftElse (On (Relation table)) self.old self.new }
    {
        make_shelves(&mut self.tables, usize::from(table.0) + 1)
    }

    fn make_other(&mut self, key: Key) -> Mem<()>
        ensures same { (k : Key) → shelf_at self.new k ≡ shelf_at self.old k }
        ensures there { OnOk result (is_some (get block.ghosts.eq self.new.others key) ≡ true) }
        ensures left { IsLeftElse key self.old self.new }
    {
        if !self.others.contains_key(&key) {
            drop(self.others.insert(key, Shelf::new())?);
        }
        Ok(())
    }

    fn make_owner(&mut self, gxid: Gxid) -> Mem<()>
        ensures same { (k : Key) → shelf_at self.new k ≡ shelf_at self.old k }
        ensures there { OnOk result (is_some (owner_in self.new.owners.items gxid) ≡ true) }
        ensures left { IsLeftElse (Of gxid) self.old self.new }
    {
        match place_of(self.owners.as_slice(), gxid) {
            Some(_) => Ok(()),
            None => self.start_owner(gxid),
        }
    }

    // Takes a record for a transaction that has none.
    fn start_owner(&mut self, gxid: Gxid) -> Mem<()>
        requires { owner_in self.old.owners.items gxid ≡ None }
        ensures same { (k : Key) → shelf_at self.new k ≡ shelf_at self.old k }
        ensures there { OnOk result (is_some (owner_in self.new.owners.items gxid) ≡ true) }
        ensures left { IsLeftElse (Of gxid) self.old self.new }
    {
        match free_place(self.owners.as_slice()) {
            Some(place) => self.owners[place] = Owner::new(gxid),
            None => self.owners.push(Owner::new(gxid))?,
        }
        Ok(())
    }

    /// Takes out a hold.
    pub fn strike(&mut self, key: Key, hold: &Hold)
        ensures there { holds_at self.new key ≡ filter (λ other. not (same_hold hold.now other)) (holds_at self.old key) }
        ensures elsewhere { (k : Key) → k ≢ key → holds_at self.new k ≡ holds_at self.old k }
        ensures places { (k : Key) → places_at self.new k ≡ places_at self.old k }
        ensures tidy { IsTidy self.old → IsTidy self.new }
    {
        self.strike_there(key, hold);
        self.tidy(key);
    }

    fn strike_there(&mut self, key: Key, hold: &Hold)
        ensures there { holds_at self.new key ≡ filter (λ other. not (same_hold hold.now other)) (holds_at self.old key) }
        ensures elsewhere { (k : Key) → k ≢ key → holds_at self.new k ≡ holds_at self.old k }
        ensures places { (k : Key) → places_at self.new k ≡ places_at self.old k }
        ensures left { IsLeftElse key self.old self.new }
    {
        if let Some(shelf) = self.shelf_mut(key) {
            shelf.strike(hold);
        }
    }

    // Drops what nobody needs, but a table's shelf, to which the next command on it comes.
    #[tactic(auto, using(crate::proofs::Tidy::tidy_table))]
    fn tidy(&mut self, key: Key)
        ensures holds { (k : Key) → holds_at self.new k ≡ holds_at self.old k }
        ensures places { (k : Key) → places_at self.new k ≡ places_at self.old k }
        ensures tidy { IsTidyBut (keeper key) self.old → IsTidy self.new }
    {
        match key {
            Key::On(Object::Relation(_)) => {}
            Key::On(Object::Tuple(rid)) => self.drop_idle(rid),
            Key::On(Object::Transaction(gxid)) => self.free_idle(gxid),
            Key::Of(gxid) => self.free_idle(gxid),
        }
    }

    // Frees a transaction's record that nobody needs.
    fn free_idle(&mut self, gxid: Gxid)
        ensures same { (k : Key) → shelf_at self.new k ≡ shelf_at self.old k }
        ensures tidy { IsTidyBut (Of gxid) self.old → IsTidy self.new }
    {
        if let Some(place) = place_of(self.owners.as_slice(), gxid) {
            if self.owners[place].is_idle() {
                free(&mut self.owners, gxid);
            }
        }
    }

    // Drops a row's shelf that nobody needs.
    fn drop_idle(&mut self, rid: Rid)
        ensures holds { (k : Key) → holds_at self.new k ≡ holds_at self.old k }
        ensures places { (k : Key) → places_at self.new k ≡ places_at self.old k }
        ensures tidy { IsTidyBut (On (Tuple rid)) self.old → IsTidy self.new }
    {
        let key = Key::On(Object::Tuple(rid));
        if self.is_idle(key) {
            drop(self.others.remove(&key));
        }
    }

    fn is_idle(&self, key: Key) -> bool
        ensures { result ≡ ((length (holds_at self.now key) == 0) && (places_at self.now key == 0)) }
    {
        match self.shelf(key) {
            Some(shelf) => shelf.is_idle(),
            None => true,
        }
    }

    /// Takes out all holds of a transaction, and the room that was kept for more.
    pub fn take_of(&mut self, gxid: Gxid) -> HoldList
        ensures taken { held result ≡ holds_at self.old (Of gxid) }
        ensures there { holds_at self.new (Of gxid) ≡ [] }
        ensures elsewhere { (k : Key) → k ≢ Of gxid → holds_at self.new k ≡ holds_at self.old k }
        ensures places_there { places_at self.new (Of gxid) ≡ 0 }
        ensures places_elsewhere { (k : Key) → k ≢ Of gxid → places_at self.new k ≡ places_at self.old k }
        ensures tidy { IsTidy self.old → IsTidy self.new }
    {
        let holds = self.take_there(Key::Of(gxid));
        self.free_idle(gxid);
        holds
    }

    fn take_there(&mut self, key: Key) -> HoldList
        ensures taken { held result ≡ holds_at self.old key }
        ensures there { shelf_at self.new key ≡ no_shelf }
        ensures elsewhere { (k : Key) → k ≢ key → shelf_at self.new k ≡ shelf_at self.old k }
        ensures left { IsLeftElse key self.old self.new }
    {
        match self.shelf_mut(key) {
            Some(shelf) => shelf.take(),
            None => HoldList::Empty,
        }
    }

    /// Makes room for a claim under both its keys.
    pub fn expect(&mut self, claim: &Claim) -> Mem<()>
        ensures holds { (k : Key) → holds_at self.new k ≡ holds_at self.old k }
        ensures ok { OnOk result ((k : Key) → places_at self.new k ≡ places_at self.old k + bit (is_under k claim.now)) }
        ensures err { OnErr result ((k : Key) → places_at self.new k ≡ places_at self.old k) }
        ensures tidy { IsTidy self.old → IsTidy self.new }
    {
        self.reserve(Key::On(claim.object))?;
        if let Err(error) = self.reserve(Key::Of(claim.gxid)) {
            self.cancel(Key::On(claim.object));
            return Err(error);
        }
        Ok(())
    }

    /// Gives the room for a claim up.
    pub fn forget(&mut self, claim: &Claim)
        ensures holds { (k : Key) → holds_at self.new k ≡ holds_at self.old k }
        ensures places { (k : Key) → places_at self.new k ≡ places_at self.old k - bit (is_under k claim.now) }
        ensures tidy { IsTidy self.old → IsTidy self.new }
    {
        self.cancel(Key::On(claim.object));
        self.cancel(Key::Of(claim.gxid));
    }

    /// Adds a hold under both its keys, for which there is room.
    pub fn file(&mut self, hold: Hold)
        requires { (k : Key) → bit (is_under k hold.claim) ≤ places_at self.old k }
        ensures there { (k : Key) → is_under k hold.claim ≡ true → holds_at self.new k ≡ holds_at self.old k ++ hold ∷ [] }
        ensures elsewhere { (k : Key) → is_under k hold.claim ≡ false → holds_at self.new k ≡ holds_at self.old k }
        ensures places { (k : Key) → places_at self.new k ≡ places_at self.old k - bit (is_under k hold.claim) }
        ensures tidy { IsTidy self.old → IsTidy self.new }
    {
        self.fill(Key::On(hold.claim.object), hold);
        self.fill(Key::Of(hold.claim.gxid), hold);
    }

    /// Adds a hold that stands nowhere under both its keys, beside the room that is kept for others.
    pub fn enter(&mut self, hold: Hold) -> Mem<()>
        requires { (k : Key) → filter (λ other. not (same_hold hold other)) (holds_at self.old k) ≡ holds_at self.old k }
        ensures there { OnOk result ((k : Key) → is_under k hold.claim ≡ true → holds_at self.new k ≡ holds_at self.old k ++ hold ∷ []) }
        ensures elsewhere { OnOk result ((k : Key) → is_under k hold.claim ≡ false → holds_at self.new k ≡ holds_at self.old k) }
        ensures err { OnErr result ((k : Key) → holds_at self.new k ≡ holds_at self.old k) }
        ensures places { (k : Key) → places_at self.new k ≡ places_at self.old k }
        ensures tidy { IsTidy self.old → IsTidy self.new }
    {
        self.add(Key::On(hold.claim.object), hold)?;
        if let Err(error) = self.add(Key::Of(hold.claim.gxid), hold) {
            self.strike(Key::On(hold.claim.object), &hold);
            return Err(error);
        }
        Ok(())
    }

    /// Takes out a hold under both its keys.
    pub fn unfile(&mut self, hold: &Hold)
        ensures there { (k : Key) → is_under k hold.now.claim ≡ true → holds_at self.new k ≡ filter (λ other. not (same_hold hold.now other)) (holds_at self.old k) }
        ensures elsewhere { (k : Key) → is_under k hold.now.claim ≡ false → holds_at self.new k ≡ holds_at self.old k }
        ensures places { (k : Key) → places_at self.new k ≡ places_at self.old k }
        ensures tidy { IsTidy self.old → IsTidy self.new }
    {
        self.strike(Key::On(hold.claim.object), hold);
        self.strike(Key::Of(hold.claim.gxid), hold);
    }
}
