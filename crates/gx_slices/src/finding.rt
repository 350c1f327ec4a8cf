// The rows of a table on which a condition is tested. Where its leftmost conjunct wants a value of the distribution column, the index has
// all those with that value.
ghost use Rattle.std.specs.Prelude.{◌≡◌, List, Some, IfOk, IfSome, slice_get};
ghost use Rattle.gx_ids.specs.declared.rid.Rid.{Rid};
ghost use Rattle.std.specs.List.{flat_map};
ghost use Rattle.std.specs.Option.{option_copied};
ghost use Rattle.gx_meaning.specs.Answer.{AreRising};
ghost use Rattle.gx_slices.specs.Filed.{image_at, keyed, versions_in};
ghost use Rattle.gx_store.specs.Rows.{row_at};
ghost use Rattle.gx_sweep.specs.Index.{key_at, rids_under};
ghost use Rattle.gx_tree.specs.declared.schema.Dist.{Dist};
ghost use Rattle.gx_slices.specs.Keyed.{IsKeyed, IsShownFor, IsWanted, key_column};

use crate::reading::{rows_in, rows_of};
use crate::shown_row::ShownRow;
use gx_dsnap::Snapshot;
use gx_ids::{Cid, Lxid, Mem, Rid, Table};
use gx_plan::wanted_key;
use gx_rows::{Versions, XidMap};
use gx_sweep::KeyIndex;
use gx_tree::{Cond, Dist, Value};
use std::alloc::Global;
use std::collections::BTreeMap;

// Of the rows that the index has under this value those that are shown, rising; some may have another value by now.
fn rows_under_key<'a>(
    alloc: Global,
    index: &KeyIndex,
    tables: &'a BTreeMap<Table, Versions>,
    xids: &XidMap,
    table: Table,
    value: &Value,
    snap: &Snapshot,
    own: Option<Lxid>,
    cid: Cid,
) -> Mem<Vec<ShownRow<'a>>>
    ensures whole { IfOk result (λ rows. rows.items
        ≡ flat_map (λ rid. keyed rid (image_at (versions_in tables.now.entries table) xids.now snap.now own cid rid)) (rids_under index.now (key_at table value.now))) }
    ensures rising { IfOk result (λ rows. AreRising rows.items) }
{
    let rids = index.find(table, value)?;
    match tables.get(&table) {
        Some(versions) => rows_of(alloc, versions, xids, rids.as_slice(), snap, own, cid),
        None => Ok(Vec::new(alloc)),
    }
}

// The column by which a table is distributed, if it is by one.
pub(crate) fn key_column(dists: &[Dist], table: Table) -> Option<u8>
    ensures { result ≡ key_column (slice_get dists.now table.0) }
{
    match dists.get(table.0 as usize) {
        Some(Dist::By(column)) => Some(*column),
        _ => None,
    }
}

// The value that the leftmost conjunct of a condition wants in a column.
fn wanted(column: u8, cond: &Option<Cond>) -> Option<&Value>
    ensures { IfSome (option_copied result) (IsWanted cond.now column) }
{
    match cond {
        Some(cond) => wanted_key(column, cond),
        None => None,
    }
}

// The rows that are shown without some on which the condition is false, rising, where the table is distributed by this column.
fn rows_by_column<'a>(
    alloc: Global,
    index: &KeyIndex,
    tables: &'a BTreeMap<Table, Versions>,
    xids: &XidMap,
    table: Table,
    column: u8,
    cond: &Option<Cond>,
    snap: &Snapshot,
    own: Option<Lxid>,
    cid: Cid,
) -> Mem<Vec<ShownRow<'a>>>
    ghost dists: { List Dist }
    requires keyed { IsKeyed dists index.now tables.now.entries xids.now }
    requires key { key_column (slice_get dists table.0) ≡ Some column }
    ensures rising { IfOk result (λ rows. AreRising rows.items) }
    ensures images { IfOk result (λ rows. (rid : Rid) → IsShownFor cond.now (image_at (versions_in tables.now.entries table) xids.now snap.now own cid rid) (row_at rows.items rid)) }
{
    match wanted(column, cond) {
        Some(value) => rows_under_key(alloc, index, tables, xids, table, value, snap, own, cid),
        None => rows_in(alloc, tables, xids, table, snap, own, cid),
    }
}

// The same, however the table is distributed.
pub(crate) fn rows_to_test<'a>(
    alloc: Global,
    dists: &[Dist],
    index: &KeyIndex,
    tables: &'a BTreeMap<Table, Versions>,
    xids: &XidMap,
    table: Table,
    cond: &Option<Cond>,
    snap: &Snapshot,
    own: Option<Lxid>,
    cid: Cid,
) -> Mem<Vec<ShownRow<'a>>>
    ghost all: { List Dist }
    requires dists { dists.now ≡ all }
    requires keyed { IsKeyed all index.now tables.now.entries xids.now }
    ensures rising { IfOk result (λ rows. AreRising rows.items) }
    ensures images { IfOk result (λ rows. (rid : Rid) → IsShownFor cond.now (image_at (versions_in tables.now.entries table) xids.now snap.now own cid rid) (row_at rows.items rid)) }
{
    match key_column(dists, table) {
        Some(column) => rows_by_column(
            alloc, index, tables, xids, table, column, cond, snap, own, cid,
        ),
        None => rows_in(alloc, tables, xids, table, snap, own, cid),
    }
}
