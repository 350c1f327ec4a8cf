// The tables, as all segments show them.
ghost use Rattle.std.specs.Prelude.{◌≡◌, ◌<◌, ◌+◌, false, Some, IfOk, length, map, slice_get};
ghost use Rattle.std.specs.BTreeMap.{get, IsOrdered};
ghost use Rattle.gx_coord.specs.Steps.{IsCoord};
ghost use Rattle.gx_meaning.specs.Order.{rid_order};
ghost use Rattle.gx_ids.specs.declared.rid.Rid.{Rid as RowId};
ghost use Rattle.gx_law_runs.specs.Replays.{coordinator_after, segment_after, world_behind};
ghost use Rattle.gx_rules.specs.Coordinators.{Coord as RuleCoord};
ghost use Rattle.gx_rules.specs.Segments.{Seg};
ghost use Rattle.gx_rules.specs.Shown.{shown};
ghost use Rattle.gx_rules.specs.Snapshots.{snapshot_of};
ghost use Rattle.gx_segment.specs.Steps.{IsSegment, nobody, no_command};
ghost use Rattle.gx_segment.specs.declared.segment.Segment.{Segment as OneSegment};
ghost use Rattle.gx_law_reads.specs.Sights.{AreRowsOf, AreRowsOfAll};
ghost use Rattle.gx_world.specs.Networks.{IsNetwork};
ghost use Rattle.gx_world.specs.Tables.{entry_row, last_at, shown_by};

use crate::network::Network;
use gx_dsnap::Snapshot;
use gx_ids::{Mem, Rid, Table};
use gx_tree::{KeyedRow, Row};
use std::alloc::Global;
use std::collections::BTreeMap;

// A table's rows, by their identities.
type Rows = BTreeMap<Rid, Row>;

// The rows of each table, by a snapshot that is taken now.
pub(crate) fn tables(network: &Network) -> Mem<Vec<Vec<KeyedRow>>>
    requires is { IsNetwork network.now }
    requires usable { network.now.spent ≡ false }
    ensures count { IfOk result (λ tables. length tables.items ≡ length network.now.script.value.tables) }
    ensures rows { IfOk result (λ tables. AreRowsOfAll 0 (world_behind network.now.script.value network.now.run.steps) tables.items) }
{
    let snapshot = snapshot_now(network)?;
    let count = network.script.tables.len();
    let mut tables = Vec::with_capacity(network.alloc, count)?;
    for number in 0..count {
        tables.push(table(network, &snapshot, Table(number as u8))?)?;
    }
    Ok(tables)
}

fn snapshot_now(network: &Network) -> Mem<Snapshot>
    requires is { IsNetwork network.now }
    requires usable { network.now.spent ≡ false }
    ensures { IfOk result (λ snapshot. snapshot ≡ snapshot_of (coordinator_after network.now.script.value network.now.run.steps).table) }
{
    snapshot_there(network)
}

fn snapshot_there(network: &Network) -> Mem<Snapshot>
    ghost c: { RuleCoord }
    requires is { IsCoord network.now.coord c }
    ensures { IfOk result (λ snapshot. snapshot ≡ snapshot_of c.table) }
{
    network.coord.final_snapshot()
}

fn table(network: &Network, snapshot: &Snapshot, table: Table) -> Mem<Vec<KeyedRow>>
    requires is { IsNetwork network.now }
    requires usable { network.now.spent ≡ false }
    requires snapshot { snapshot.now ≡ snapshot_of (coordinator_after network.now.script.value network.now.run.steps).table }
    ensures { IfOk result (λ rows. AreRowsOf (world_behind network.now.script.value network.now.run.steps) table rows.items) }
{
    let rows = gathered(network, snapshot, table)?;
    let list = listed(network.alloc, rows)?;
    Ok(list)
}

// The rows that all segments show.
fn gathered(network: &Network, snapshot: &Snapshot, table: Table) -> Mem<Rows>
    requires is { IsNetwork network.now }
    requires usable { network.now.spent ≡ false }
    ensures { IfOk result (λ rows. (q : RowId) → get rid_order rows q ≡ last_at (shown_by network.now.script.value network.now.run.steps snapshot.now table (length network.now.segments.items)) q) }
{
    let rows = all_shown(network, snapshot, table)?;
    by_rid(network.alloc, rows)
}

// What the segments show, one behind the other.
fn all_shown(network: &Network, snapshot: &Snapshot, table: Table) -> Mem<Vec<KeyedRow>>
    requires is { IsNetwork network.now }
    requires usable { network.now.spent ≡ false }
    ensures { IfOk result (λ rows. rows.items ≡ shown_by network.now.script.value network.now.run.steps snapshot.now table (length network.now.segments.items)) }
{
    let mut rows = Vec::new(network.alloc);
    for place in 0..network.segments.len() {
        let mut more = shown_at(network, place, snapshot, table)?;
        rows.append(&mut more)?;
    }
    Ok(rows)
}

// Rows by their identities: the last of each.
fn by_rid(alloc: Global, rows: Vec<KeyedRow>) -> Mem<Rows>
    ensures { IfOk result (λ map. (q : RowId) → get rid_order map q ≡ last_at rows.items q) }
{
    let rows: Rows = rows
        .into_iter()
        .map(|KeyedRow { rid, row }| (rid, row))
        .collect(alloc)?;
    Ok(rows)
}

// What the segment of a place shows.
fn shown_at(
    network: &Network,
    place: usize,
    snapshot: &Snapshot,
    table: Table,
) -> Mem<Vec<KeyedRow>>
    requires is { IsNetwork network.now }
    requires usable { network.now.spent ≡ false }
    requires inside { place < length network.now.segments.items }
    ensures { IfOk result (λ rows. rows.items ≡ shown (segment_after network.now.script.value (record { 0 = place + 1 }) network.now.run.steps) snapshot.now nobody no_command table) }
{
    shown_there(network, place, snapshot, table)
}

fn shown_there(
    network: &Network,
    place: usize,
    snapshot: &Snapshot,
    table: Table,
) -> Mem<Vec<KeyedRow>>
    ghost s: { Seg }
    requires inside { place < length network.now.segments.items }
    requires is { (segment : OneSegment) → slice_get network.now.segments.items place ≡ Some segment → IsSegment segment s }
    ensures { IfOk result (λ rows. rows.items ≡ shown s snapshot.now nobody no_command table) }
{
    network.segments[place].final_rows(snapshot, table)
}

fn listed(alloc: Global, rows: Rows) -> Mem<Vec<KeyedRow>>
    ensures listed { IfOk result (λ list. list.items ≡ map entry_row rows.entries) }
    ensures ordered { IfOk result (λ list. IsOrdered rid_order rows) }
{
    let list: Vec<KeyedRow> = rows
        .into_iter()
        .map(|(rid, row)| KeyedRow { rid, row })
        .collect(alloc)?;
    Ok(list)
}
