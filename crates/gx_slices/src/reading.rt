ghost use Rattle.std.specs.Prelude.{◌≡◌, ◌++◌, IfOk, OnOk, option_map, option_and_then};
ghost use Rattle.std.specs.BTreeMap.{IsOrdered};
ghost use Rattle.std.specs.List.{flat_map};
ghost use Rattle.std.specs.Option.{option_copied};
ghost use Rattle.gx_meaning.specs.Answer.{AreRising};
ghost use Rattle.gx_rows.specs.Rids.{rid_cmp};
ghost use Rattle.gx_rows.specs.Xids.{lxid_of};
ghost use Rattle.gx_slices.specs.Store.{kept_at};
ghost use Rattle.gx_slices.specs.Filed.{current_at, image_at, image_of, keyed, last_unaborted, listed_rows, newest_at, rows_at, rows_in_entry, versions_in};

use crate::current::Current;
use crate::newest::Newest;
use crate::shown_row::{ShownRow, push_shown};
use gx_dsnap::Snapshot;
use gx_ids::{Cid, Duplicate, Gxid, Lxid, Mem, Rid, Table};
use gx_rows::{Version, VersionList, Versions, XidMap, shown};
use gx_tree::Row;
use std::alloc::Global;
use std::collections::BTreeMap;

// The lxid of the reader's own transaction, where it has one that wrote here.
pub(crate) fn own_lxid(xids: &XidMap, own: Option<Gxid>) -> Option<Lxid>
    ensures { result ≡ option_and_then (lxid_of xids.now) own }
{
    match own {
        Some(gxid) => xids.lxid_of(gxid),
        None => None,
    }
}

// The rows that a table shows, rising.
pub(crate) fn rows_in<'a>(
    alloc: Global,
    tables: &'a BTreeMap<Table, Versions>,
    xids: &XidMap,
    table: Table,
    snap: &Snapshot,
    own: Option<Lxid>,
    cid: Cid,
) -> Mem<Vec<ShownRow<'a>>>
    ensures whole { IfOk result (λ rows. rows.items ≡ rows_at (versions_in tables.now.entries table) xids.now table snap.now own cid) }
    ensures rising { IfOk result (λ rows. AreRising rows.items) }
{
    match tables.get(&table) {
        Some(versions) => rows_shown(alloc, versions, xids, table, snap, own, cid),
        None => Ok(Vec::new(alloc)),
    }
}

// The rows that the versions of one table show, rising.
fn rows_shown<'a>(
    alloc: Global,
    versions: &'a Versions,
    xids: &XidMap,
    table: Table,
    snap: &Snapshot,
    own: Option<Lxid>,
    cid: Cid,
) -> Mem<Vec<ShownRow<'a>>>
    ensures whole { IfOk result (λ rows. rows.items ≡ rows_at versions.now xids.now table snap.now own cid) }
    ensures rising { IfOk result (λ rows. AreRising rows.items) }
{
    rows_listed(alloc, versions.lists(), xids, table, snap, own, cid)
}

// The rows that lists of versions show, in the order of their rids.
fn rows_listed<'a>(
    alloc: Global,
    lists: &'a BTreeMap<Rid, VersionList>,
    xids: &XidMap,
    table: Table,
    snap: &Snapshot,
    own: Option<Lxid>,
    cid: Cid,
) -> Mem<Vec<ShownRow<'a>>>
    ensures whole { IfOk result (λ rows. rows.items ≡ listed_rows lists.now.entries xids.now table snap.now own cid) }
    ensures ordered { IsOrdered rid_cmp lists.now }
{
    let mut rows = Vec::with_capacity(alloc, lists.len())?;
    for (rid, list) in lists {
        push_entry(&mut rows, *rid, list, xids, table, snap, own, cid)?;
    }
    Ok(rows)
}

// Adds the row of a rid, if its versions are of the table and show one.
fn push_entry<'a>(
    rows: &mut Vec<ShownRow<'a>>,
    rid: Rid,
    list: &'a VersionList,
    xids: &XidMap,
    table: Table,
    snap: &Snapshot,
    own: Option<Lxid>,
    cid: Cid,
) -> Mem<()>
    ensures { OnOk result (rows.new.items ≡ rows.old.items ++ rows_in_entry xids.now table snap.now own cid (rid, list.now)) }
{
    if list.is_of(table) {
        let row = row_in(list.as_slice(), xids, snap, own, cid);
        push_shown(rows, rid, row)?;
    }
    Ok(())
}

// The rows that these rids show, in their order.
pub(crate) fn rows_of<'a>(
    alloc: Global,
    versions: &'a Versions,
    xids: &XidMap,
    rids: &[Rid],
    snap: &Snapshot,
    own: Option<Lxid>,
    cid: Cid,
) -> Mem<Vec<ShownRow<'a>>>
    ensures { IfOk result (λ rows. rows.items ≡ flat_map (λ rid. keyed rid (image_at versions.now xids.now snap.now own cid rid)) rids.now) }
{
    let mut rows = Vec::with_capacity(alloc, rids.len())?;
    for rid in rids {
        let row = row_in(versions.of(*rid), xids, snap, own, cid);
        push_shown(&mut rows, *rid, row)?;
    }
    Ok(rows)
}

// The row that versions show, none where it is gone.
fn row_in<'a>(
    versions: &'a [Version],
    xids: &XidMap,
    snap: &Snapshot,
    own: Option<Lxid>,
    cid: Cid,
) -> Option<&'a Row>
    ensures { option_copied result ≡ image_of versions.now xids.now snap.now own cid }
{
    let version = shown(versions, xids, snap, own, cid)?;
    version.image.as_ref()
}

// Who wrote the newest version that isn't aborted here.
pub(crate) fn current_in(
    tables: &BTreeMap<Table, Versions>,
    xids: &XidMap,
    table: Table,
    rid: Rid,
) -> Option<Current>
    ensures { result ≡ option_map (current_at xids.now) (last_unaborted (kept_at tables.now.entries table rid) xids.now) }
{
    let version = newest(tables, xids, table, rid)?;
    Some(Current {
        writer: xids.gxid_of(version.lxid),
        cid: version.cid,
    })
}

// The row that it left.
pub(crate) fn current_row_in<'a>(
    tables: &'a BTreeMap<Table, Versions>,
    xids: &XidMap,
    table: Table,
    rid: Rid,
) -> Option<&'a Row>
    ensures { option_copied result ≡ option_and_then (λ v. v.image) (last_unaborted (kept_at tables.now.entries table rid) xids.now) }
{
    let version = newest(tables, xids, table, rid)?;
    version.image.as_ref()
}

// A copy of what it left, with who wrote it.
pub(crate) fn newest_in(
    alloc: Global,
    tables: &BTreeMap<Table, Versions>,
    xids: &XidMap,
    table: Table,
    rid: Rid,
) -> Mem<Option<Newest>>
    ensures { IfOk result (λ found. found ≡ option_map (newest_at xids.now) (last_unaborted (kept_at tables.now.entries table rid) xids.now)) }
{
    match newest(tables, xids, table, rid) {
        Some(version) => Ok(Some(Newest {
            writer: xids.gxid_of(version.lxid),
            cid: version.cid,
            image: version.image.copy(alloc)?,
        })),
        None => Ok(None),
    }
}

fn newest<'a>(
    tables: &'a BTreeMap<Table, Versions>,
    xids: &XidMap,
    table: Table,
    rid: Rid,
) -> Option<&'a Version>
    ensures { option_copied result ≡ last_unaborted (kept_at tables.now.entries table rid) xids.now }
{
    match tables.get(&table) {
        Some(versions) => versions.newest(rid, xids),
        None => None,
    }
}
