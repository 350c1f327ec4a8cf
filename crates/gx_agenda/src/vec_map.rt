ghost use Rattle.std.specs.Prelude.{◌≡◌, ◌<◌, [], ℕ, Some, None, IfOk, IfErr, IfNone, IfSome, OnOk, if◌then◌else◌, length, option_map};
ghost use Rattle.std.specs.BTreeMap.{is_at};
ghost use Rattle.gx_agenda.specs.VecMap.{IsGapFor, IsLeast, IsRising, StandsAt, at};

use gx_ids::Mem;
use std::alloc::Global;
use std::marker::Model;

/// A map whose entries stand in a vector, in the order of their keys: while they are few it costs less than a tree.
#[derive(Drop)]
pub struct VecMap<K: Ord, V> {
    entries: Vec<(K, V)>,
}

impl<K: Ord, V> Model for VecMap<K, V> {
    ghost use Rattle.std.specs.Prelude.{List};

    ghost Value = { List (K × V) };

    ghost view = { λ map. map.entries.items };

    ghost use Rattle.gx_agenda.specs.VecMap.{IsRising as Rises};

    ghost invariant = { λ map. Rises K.cmp map.entries.items };
}

impl<K: Ord + Copy, V: Copy> VecMap<K, V> {
    /// A map without entries.
    pub fn new(alloc: Global) -> VecMap<K, V>
        ensures { result ≡ [] }
    {
        VecMap {
            entries: Vec::new(alloc),
        }
    }

    /// The value at a key.
    pub fn get(&self, key: K) -> Option<V>
        ensures { result ≡ at K.cmp self.now key }
    {
        match self.place(key) {
            Ok(place) => Some(self.entries[place].1),
            Err(_) => None,
        }
    }

    /// The value at a key, and where its entry stands.
    pub fn find(&self, key: K) -> Option<(usize, V)>
        ensures value { option_map (λ (f : ℕ × V). f.1) result ≡ at K.cmp self.now key }
        ensures stands { IfSome result (λ f. StandsAt (K.cmp key) self.now f.0) }
    {
        match self.place(key) {
            Ok(place) => Some((place, self.entries[place].1)),
            Err(_) => None,
        }
    }

    /// The entry of the least key.
    pub fn first(&self) -> Option<(K, V)>
        ensures found { IfSome result (λ e. at K.cmp self.now e.0 ≡ Some e.1) }
        ensures least { IfSome result (λ e. IsLeast K.cmp self.now e.0) }
        ensures none { IfNone result (self.now ≡ []) }
    {
        self.entries.first().copied()
    }

    /// The entries, in the order of their keys.
    pub fn entries(&self) -> &[(K, V)]
        ensures all { result.now ≡ self.now }
        ensures rising { IsRising K.cmp self.now }
    {
        self.entries.as_slice()
    }

    /// Sets the value at a key.
    pub fn insert(&mut self, key: K, value: V) -> Mem<()>
        ensures { OnOk result ((k : K) → at K.cmp self.new k ≡ (if is_at (K.cmp key) k then Some value else at K.cmp self.old k)) }
    {
        match self.place(key) {
            Ok(place) => self.entries[place].1 = value,
            Err(place) => self.entries.insert(place, (key, value))?,
        }
        Ok(())
    }

    /// Takes out the value at a key, if there is one.
    pub fn remove(&mut self, key: K)
        ensures { (k : K) → at K.cmp self.new k ≡ (if is_at (K.cmp key) k then None else at K.cmp self.old k) }
    {
        match self.place(key) {
            Ok(place) => {
                self.entries.remove(place);
            }
            Err(_) => {}
        }
    }

    /// Takes out the entry at a place.
    pub fn remove_at(&mut self, place: usize)
        requires { place < length self.old }
        ensures { (key k : K) → StandsAt (K.cmp key) self.old place → at K.cmp self.new k ≡ (if is_at (K.cmp key) k then None else at K.cmp self.old k) }
    {
        self.entries.remove(place);
    }

    // Where the key stands, or where it would.
    fn place(&self, key: K) -> Result<usize, usize>
        ensures found { IfOk result (StandsAt (K.cmp key) self.now) }
        ensures absent { IfErr result (IsGapFor (K.cmp key) self.now) }
    {
        self.entries.binary_search_by_key(&key, |&(key, _)| key)
    }
}
