ghost use Rattle.std.specs.Prelude.{◌≡◌, ◌≢◌, ◌++◌, ◌∷◌, [], List, Some, IfSome, IfNone, IfOk, OnOk, OnErr};
ghost use Rattle.std.specs.Borrow.{sem};
ghost use Rattle.std.specs.Map.{lookup};
ghost use Rattle.std.specs.Option.{option_copied};
ghost use Rattle.std.specs.BTreeMap.{IsOrdered, IsUnchanged, is_at};
ghost use Rattle.std.specs.List.Sorted.{IsStrictlySortedBy};
ghost use Rattle.gx_ids.specs.declared.rid.Rid.{Rid};
ghost use Rattle.gx_rows.specs.Lent.{LendsList};
ghost use Rattle.gx_rows.specs.Rids.{rid_cmp};
ghost use Rattle.gx_rows.specs.Rows.{versions_of, added, rids_of, newest_of};

use crate::list::VersionList;
use crate::version::Version;
use crate::{LocalStatus, XidMap};
use gx_ids::{Cid, Lxid, Mem, Rid, Table};
use gx_tree::Row;
use std::alloc::Global;
use std::collections::BTreeMap;
use std::collections::btree_map::Entry;
use std::marker::Model;

/// The versions of the rows at a segment. Contracts see them as the rids, rising, each with its versions in the order
/// in which they were added.
#[derive(Drop)]
pub struct Versions {
    alloc: Global,
    lists: BTreeMap<Rid, VersionList>,
}

impl Model for Versions {
    ghost use Rattle.std.specs.Prelude.{List};
    ghost use Rattle.gx_ids.specs.declared.rid.Rid.{Rid};
    ghost use Rattle.gx_rows.specs.declared.version.Version.{Version};

    ghost Value = { List (Rid × List Version) };

    ghost view = { λ a. a.lists.entries };
}

impl Versions {
    /// No versions.
    pub fn new(alloc: Global) -> Mem<Versions>
        ensures { IfOk result (λ versions. versions ≡ []) }
    {
        Ok(Versions {
            alloc,
            lists: BTreeMap::new(alloc),
        })
    }

    /// The versions of each rid, by the rids.
    pub fn lists(&self) -> &BTreeMap<Rid, VersionList>
        ensures { result.now.entries ≡ self.now }
    {
        &self.lists
    }

    /// The versions of a rid, none where it is unknown.
    pub fn of(&self, rid: Rid) -> &[Version]
        ensures { result.now ≡ versions_of self.now rid }
    {
        match self.lists.get(&rid) {
            Some(list) => list.as_slice(),
            None => &[],
        }
    }

    /// Adds a version at the end of its rid's.
    pub fn add(
        &mut self,
        rid: Rid,
        table: Table,
        image: Option<Row>,
        lxid: Lxid,
        cid: Cid,
    ) -> Mem<()>
        ensures ok { OnOk result (self.new ≡ added self.old rid (record { image = image; table = table; lxid = lxid; cid = cid })) }
        ensures last { OnOk result (versions_of self.new rid ≡ versions_of self.old rid ++ (record { image = image; table = table; lxid = lxid; cid = cid }) ∷ []) }
        ensures others { OnOk result ((q : Rid) → q ≢ rid → versions_of self.new q ≡ versions_of self.old q) }
        ensures err { OnErr result (self.new ≡ self.old) }
    {
        let version = Version {
            image,
            table,
            lxid,
            cid,
        };
        push_version(self.alloc, &mut self.lists, rid, version)
    }

    /// The versions of a rid, to be changed where they stand; none where it is unknown.
    pub fn of_mut(&mut self, rid: Rid) -> Option<&mut VersionList>
        ensures* follows { sem 𝓛 (LendsList self.entry rid result) }
        ensures found { IfSome result (λ list. lookup (is_at (rid_cmp rid)) self.old ≡ Some list.now) }
        ensures missing { IfNone result (versions_of self.old rid ≡ []) }
    {
        self.lists.get_mut(&rid)
    }

    /// The newest version of a rid that isn't locally aborted.
    pub fn newest(&self, rid: Rid, map: &XidMap) -> Option<&Version>
        ensures { option_copied result ≡ newest_of self.now rid map.now }
    {
        let list = self.of(rid);
        list.iter()
            .rev()
            .find(|version| map.status(version.lxid) != LocalStatus::Aborted)
    }

    /// The rids that have a version in a table, rising.
    pub fn rids(&self, table: Table) -> Mem<Vec<Rid>>
        ensures whole { IfOk result (λ rids. rids.items ≡ rids_of self.now table) }
        ensures rising { IfOk result (λ rids. IsStrictlySortedBy rid_cmp rids.items) }
    {
        table_rids(self.alloc, &self.lists, table)
    }
}

fn push_version(
    alloc: Global,
    lists: &mut BTreeMap<Rid, VersionList>,
    rid: Rid,
    version: Version,
) -> Mem<()>
    ensures ok { OnOk result (lists.new.entries ≡ added lists.old.entries rid version) }
    ensures err { OnErr result (IsUnchanged lists.old lists.new) }
{
    match lists.entry(rid)? {
        Entry::Occupied(list) => list.into_mut().push(alloc, version),
        Entry::Vacant(place) => {
            place.insert(VersionList::of(version));
            Ok(())
        }
    }
}

// The keys of the lists with a version in a table; the keys are in order.
fn table_rids(alloc: Global, lists: &BTreeMap<Rid, VersionList>, table: Table) -> Mem<Vec<Rid>>
    ensures whole { IfOk result (λ rids. rids.items ≡ rids_of lists.now.entries table) }
    ensures ordered { IsOrdered rid_cmp lists.now }
{
    let entries = lists.iter();
    let rids: Vec<Rid> = entries
        .filter(|entry| entry.1.is_of(table))
        .map(|entry| *entry.0)
        .collect(alloc)?;
    Ok(rids)
}
