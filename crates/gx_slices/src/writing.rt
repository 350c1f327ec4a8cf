ghost use Rattle.std.specs.Prelude.{◌≡◌, ◌≤◌, ◌⊎◌, true, Some, IfOk, OnOk, OnErr, option_map, slice_get};
ghost use Rattle.std.specs.BTreeMap.{IsUnchanged};
ghost use Rattle.std.specs.Option.{option_copied};
ghost use Rattle.gx_ids.specs.declared.rid.Rid.{Rid};
ghost use Rattle.gx_rows.specs.Xids.{lxid_of, status_of};
ghost use Rattle.gx_sweep.specs.Index.{has_under};
ghost use Rattle.gx_sweep.specs.declared.table_key.TableKey.{TableKey};
ghost use Rattle.gx_slices.specs.Filed.{IsWritten, filed, with_status_at, with_writer};
ghost use Rattle.gx_slices.specs.Keyed.{IsUnder, value_in};

use crate::finding::key_column;
use gx_ids::{Cid, Gxid, Lxid, Mem, Rid, Table};
use gx_rows::{LocalStatus, Versions, XidMap};
use gx_sweep::KeyIndex;
use gx_tree::{Dist, Row, Value};
use std::alloc::Global;
use std::collections::BTreeMap;

// The value of the distribution column in an image.
fn key_in(column: Option<u8>, image: &Option<Row>) -> Option<&Value>
    ensures { option_copied result ≡ value_in image.now column }
{
    match (column, image) {
        (Some(column), Some(row)) => row.as_slice().get(column as usize),
        _ => None,
    }
}

// Puts a row under its key, if it has one.
fn index_row(
    dists: &[Dist],
    index: &mut KeyIndex,
    table: Table,
    rid: Rid,
    image: &Option<Row>,
) -> Mem<()>
    ensures under { OnOk result (IsUnder index.new (slice_get dists.now table.0) table rid image.now) }
    ensures kept { (at : TableKey) (q : Rid) → has_under index.old at q ≡ true → has_under index.new at q ≡ true }
{
    match key_in(key_column(dists, table), image) {
        Some(key) => index.add(table, key, rid),
        None => Ok(()),
    }
}

// The row stands under its key before it is there: after want of memory the index may have more than the table.
pub(crate) fn write_keyed(
    alloc: Global,
    dists: &[Dist],
    index: &mut KeyIndex,
    tables: &mut BTreeMap<Table, Versions>,
    xids: &mut XidMap,
    gxid: Gxid,
    cid: Cid,
    table: Table,
    rid: Rid,
    image: Option<Row>,
) -> Mem<()>
    requires { xids.old.horizon.0 ≤ gxid.0 }
    ensures ok { OnOk result (IsWritten tables.old.entries tables.new.entries xids.old xids.new gxid cid table rid image) }
    ensures err { OnErr result (IsUnchanged tables.old tables.new) }
    ensures tried { OnErr result ((xids.new ≡ xids.old) ⊎ (xids.new ≡ with_writer xids.old gxid)) }
    ensures under { OnOk result (IsUnder index.new (slice_get dists.now table.0) table rid image) }
    ensures kept { (at : TableKey) (q : Rid) → has_under index.old at q ≡ true → has_under index.new at q ≡ true }
{
    index_row(dists, index, table, rid, &image)?;
    write_in(alloc, tables, xids, gxid, cid, table, rid, image)
}

// Gives the writer its lxid, where it has none, and adds the version.
fn write_in(
    alloc: Global,
    tables: &mut BTreeMap<Table, Versions>,
    xids: &mut XidMap,
    gxid: Gxid,
    cid: Cid,
    table: Table,
    rid: Rid,
    image: Option<Row>,
) -> Mem<()>
    requires { xids.old.horizon.0 ≤ gxid.0 }
    ensures ok { OnOk result (IsWritten tables.old.entries tables.new.entries xids.old xids.new gxid cid table rid image) }
    ensures err { OnErr result (IsUnchanged tables.old tables.new) }
    ensures tried { OnErr result ((xids.new ≡ xids.old) ⊎ (xids.new ≡ with_writer xids.old gxid)) }
{
    let lxid = lxid_for(xids, gxid)?;
    add_version(alloc, tables, table, rid, image, lxid, cid)
}

// The transaction's lxid, which it is given where it has none.
fn lxid_for(xids: &mut XidMap, gxid: Gxid) -> Mem<Lxid>
    requires { xids.old.horizon.0 ≤ gxid.0 }
    ensures ok { OnOk result (xids.new ≡ with_writer xids.old gxid) }
    ensures lxid { IfOk result (λ lxid. lxid_of xids.new gxid ≡ Some lxid) }
    ensures err { OnErr result (xids.new ≡ xids.old) }
{
    match xids.lxid_of(gxid) {
        Some(lxid) => Ok(lxid),
        None => xids.assign(gxid),
    }
}

// Adds a version at the end of its row's.
fn add_version(
    alloc: Global,
    tables: &mut BTreeMap<Table, Versions>,
    table: Table,
    rid: Rid,
    image: Option<Row>,
    lxid: Lxid,
    cid: Cid,
) -> Mem<()>
    ensures ok { OnOk result (tables.new.entries ≡ filed tables.old.entries table rid (record { image = image; table = table; lxid = lxid; cid = cid })) }
    ensures err { OnErr result (IsUnchanged tables.old tables.new) }
{
    match tables.get_mut(&table) {
        Some(versions) => versions.add(rid, table, image, lxid, cid),
        None => {
            let mut versions = Versions::new(alloc)?;
            versions.add(rid, table, image, lxid, cid)?;
            drop(tables.insert(table, versions)?);
            Ok(())
        }
    }
}

// What became of a transaction here, if it has an entry.
pub(crate) fn status_in(xids: &XidMap, gxid: Gxid) -> Option<LocalStatus>
    ensures { result ≡ option_map (status_of xids.now) (lxid_of xids.now gxid) }
{
    let lxid = xids.lxid_of(gxid)?;
    Some(xids.status(lxid))
}

// Sets it, if it has an entry.
pub(crate) fn set_status_in(xids: &mut XidMap, gxid: Gxid, status: LocalStatus)
    ensures { xids.new ≡ with_status_at (lxid_of xids.old gxid) xids.old status }
{
    if let Some(lxid) = xids.lxid_of(gxid) {
        xids.set_status(lxid, status);
    }
}
