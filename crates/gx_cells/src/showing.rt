// What the nodes apart show: the rows of each table.
ghost use Rattle.std.specs.Prelude.{◌≡◌, ◌≤◌, IfOk, OnOk, flat_map, length, map};
ghost use Rattle.gx_outside.specs.Shelves.{Shelf};
ghost use Rattle.gx_rules.specs.Coordinators.{Coord as RuleCoord};
ghost use Rattle.gx_rules.specs.Segments.{Seg};
ghost use Rattle.gx_rules.specs.Shown.{shown};
ghost use Rattle.gx_rules.specs.Snapshots.{snapshot_of};
ghost use Rattle.gx_segment.specs.Steps.{IsSegment, nobody, no_command};
ghost use Rattle.gx_tables.specs.Tables.{AreTablesOf};
ghost use Rattle.gx_cells.specs.CoordKept.{IsCoordApart, coordinator_apart};
ghost use Rattle.gx_cells.specs.CoordViews.{coord_data};
ghost use Rattle.gx_cells.specs.Kept.{segment_apart};
ghost use Rattle.gx_cells.specs.Views.{data_of, rows_of};

use crate::coord_cell::CoordCell;
use crate::coord_history::CoordHistory;
use crate::history::History;
use crate::inbox::Inbox;
use crate::segment_cell::SegmentCell;
use gx_coord::Coord;
use gx_dsnap::Snapshot;
use gx_ids::{Mem, OutOfMemory, Table};
use gx_outside::Journal;
use gx_segment::Segment;
use gx_tables::last_rows;
use gx_tree::KeyedRow;
use std::alloc::Global;

impl<J: Journal> CoordCell<J> {
    // The snapshot that a reader without a transaction takes now, unless it is spent.
    pub(crate) fn snapshot(&self) -> Mem<Snapshot>
        ensures taken { IfOk result (λ snapshot. snapshot ≡ snapshot_of (coord_data self.now).table) }
        ensures few { OnOk result (length self.now.script.tables ≤ 64) }
    {
        if self.spent {
            return Err(OutOfMemory);
        }
        snapshot_there(&self.history, self.inboxes.as_slice(), &self.coord)
    }

    // How many tables the script has.
    pub(crate) fn table_count(&self) -> usize
        ensures { result ≡ length self.now.script.tables }
    {
        self.history.script.tables.len()
    }
}

fn snapshot_there(history: &CoordHistory, inboxes: &[Inbox], coord: &Coord) -> Mem<Snapshot>
    ghost c: { RuleCoord }
    requires apart { (shelf : Shelf) × IsCoordApart history.now inboxes.now coord.now shelf }
    requires is { c ≡ coordinator_apart history.now inboxes.now }
    ensures { IfOk result (λ snapshot. snapshot ≡ snapshot_of c.table) }
{
    coord.final_snapshot()
}

impl<J: Journal> SegmentCell<J> {
    // The rows of a table that a reader without a transaction is shown, unless it is spent.
    pub(crate) fn rows(&self, snapshot: &Snapshot, table: Table) -> Mem<Vec<KeyedRow>>
        ensures { IfOk result (λ rows. rows.items ≡ rows_of snapshot.now table self.now) }
    {
        if self.spent {
            return Err(OutOfMemory);
        }
        rows_there(&self.history, &self.inbox, &self.segment, snapshot, table)
    }
}

fn rows_there(
    history: &History,
    inbox: &Inbox,
    segment: &Segment,
    snapshot: &Snapshot,
    table: Table,
) -> Mem<Vec<KeyedRow>>
    ghost s: { Seg }
    requires segment { IsSegment segment.now s }
    requires is { s ≡ segment_apart history.now inbox.now.source.received }
    ensures { IfOk result (λ rows. rows.items ≡ shown s snapshot.now nobody no_command table) }
{
    segment.final_rows(snapshot, table)
}

// The rows of so many tables, as the segments show them.
pub(crate) fn tables_by<J: Journal>(
    alloc: Global,
    segments: &[SegmentCell<J>],
    snapshot: &Snapshot,
    count: usize,
) -> Mem<Vec<Vec<KeyedRow>>>
    requires { count ≤ 64 }
    ensures all { IfOk result (λ tables. length tables.items ≡ count) }
    ensures rows { IfOk result (λ tables. AreTablesOf (map data_of segments.now) snapshot.now 0 tables.items) }
{
    let mut tables = Vec::with_capacity(alloc, count)?;
    for number in 0..count {
        let rows = rows_by(alloc, segments, snapshot, Table(number as u8))?;
        let list = last_rows(alloc, rows)?;
        tables.push(list)?;
    }
    Ok(tables)
}

// What the segments show of a table, one behind the other.
fn rows_by<J: Journal>(
    alloc: Global,
    segments: &[SegmentCell<J>],
    snapshot: &Snapshot,
    table: Table,
) -> Mem<Vec<KeyedRow>>
    ensures { IfOk result (λ rows. rows.items ≡ flat_map (rows_of snapshot.now table) segments.now) }
{
    let mut rows = Vec::new(alloc);
    for segment in segments {
        let mut more = segment.rows(snapshot, table)?;
        rows.append(&mut more)?;
    }
    Ok(rows)
}
