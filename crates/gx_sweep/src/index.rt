ghost use Rattle.std.specs.Prelude.{◌≡◌, ◌≢◌, [], true, IfOk, OnOk, OnErr};
ghost use Rattle.std.specs.BTreeSet.{insert_key};
ghost use Rattle.std.specs.List.Sorted.{IsStrictlySortedBy};
ghost use Rattle.gx_ids.specs.declared.rid.Rid.{Rid};
ghost use Rattle.gx_sweep.specs.declared.table_key.TableKey.{TableKey};
ghost use Rattle.gx_rows.specs.Rids.{rid_cmp};

use crate::rids::{Rids, add_rid, list};
use crate::table_key::TableKey;
use gx_ids::{Duplicate, Mem, Rid, Table};
use gx_tree::Value;
use std::alloc::Global;
use std::collections::HashMap;
use std::collections::hash_map::Entry;

/// Which rows were put under a value of a table's distribution column. It only grows.
#[derive(Drop)]
pub struct KeyIndex {
    alloc: Global,
    places: HashMap<TableKey, Rids>,
}

impl KeyIndex {
    ghost use Rattle.gx_sweep.specs.Index.{has_under, key_at, rids_under};

    /// An index without rows.
    pub fn new(alloc: Global) -> KeyIndex
        ensures { (at : TableKey) → rids_under result at ≡ [] }
    {
        KeyIndex {
            alloc,
            places: HashMap::new(alloc),
        }
    }

    /// Puts a row under a key, once.
    pub fn add(&mut self, table: Table, key: &Value, rid: Rid) -> Mem<()>
        ensures there { OnOk result (rids_under self.new (key_at table key.now) ≡ insert_key rid_cmp (rids_under self.old (key_at table key.now)) rid) }
        ensures elsewhere { (at : TableKey) → at ≢ key_at table key.now → rids_under self.new at ≡ rids_under self.old at }
        ensures err { OnErr result (rids_under self.new (key_at table key.now) ≡ rids_under self.old (key_at table key.now)) }
        ensures has { OnOk result (has_under self.new (key_at table key.now) rid ≡ true) }
        ensures kept { (at : TableKey) (q : Rid) → has_under self.old at q ≡ true → has_under self.new at q ≡ true }
    {
        let key = key.copy(self.alloc)?;
        self.add_at(TableKey { table, key }, rid)
    }

    #[tactic(auto, using(crate::proofs::Places::elsewhere_than))]
    fn add_at(&mut self, at: TableKey, rid: Rid) -> Mem<()>
        ensures there { OnOk result (rids_under self.new at ≡ insert_key rid_cmp (rids_under self.old at) rid) }
        ensures elsewhere { (q : TableKey) → q ≢ at → rids_under self.new q ≡ rids_under self.old q }
        ensures err { OnErr result (rids_under self.new at ≡ rids_under self.old at) }
    {
        match self.places.entry(at)? {
            Entry::Occupied(rids) => add_rid(self.alloc, rids.into_mut(), rid),
            Entry::Vacant(place) => {
                place.insert(Rids::One(rid));
                Ok(())
            }
        }
    }

    /// The rows under a key, rising.
    pub fn find(&self, table: Table, key: &Value) -> Mem<Vec<Rid>>
        ensures found { IfOk result (λ rids. rids.items ≡ rids_under self.now (key_at table key.now)) }
        ensures rising { IfOk result (λ rids. IsStrictlySortedBy rid_cmp rids.items) }
    {
        // A map is asked by a whole key: std leaves no other kind of query to a program.
        let key = key.copy(self.alloc)?;
        match self.places.get(&TableKey { table, key }) {
            Some(rids) => list(self.alloc, rids),
            None => Ok(Vec::new(self.alloc)),
        }
    }
}
