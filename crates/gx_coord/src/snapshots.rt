// The snapshot by which a command reads.
ghost use Rattle.std.specs.Prelude.{◌≡◌, ◌++◌, Some, IfOk, OnOk};
ghost use Rattle.gx_dtx.specs.Rules.{with_live};
ghost use Rattle.gx_dtx.specs.Table.{IsActive, xmin_of};
ghost use Rattle.gx_rules.specs.AtCoordinator.{kept_at, reads_by, reads_for, takes_snapshot};
ghost use Rattle.gx_rules.specs.Coordinators.{with_work};
ghost use Rattle.gx_rules.specs.Snapshots.{snapshot_of as rule_snapshot};
ghost use Rattle.gx_coord.specs.Books.{IsFramed, coord_of};
ghost use Rattle.gx_coord.specs.Sound.{IsDrawn};

use crate::coord::Coord;
use gx_dsnap::Snapshot;
use gx_dtx::Dtx;
use gx_entries::{find, place_of};
use gx_ids::{Cid, Duplicate, Gxid, Mem};
use gx_store::Mark;
use gx_tree::{Level, Stmt};
use std::alloc::Global;

// The snapshot of the transactions, which lives from now on.
fn take(dtx: &mut Dtx, gxid: Gxid) -> Mem<Snapshot>
    requires active { IsActive dtx.old gxid }
    requires drawn { IsDrawn dtx.old }
    ensures value { IfOk result (λ snapshot. snapshot ≡ rule_snapshot dtx.old) }
    ensures dtx { OnOk result (dtx.new ≡ with_live dtx.old gxid (Some (xmin_of dtx.old))) }
{
    dtx.snapshot(gxid)
}

// A repeatable-read block keeps it.
fn kept(alloc: Global, level: Level, snapshot: &Snapshot) -> Mem<Option<Snapshot>>
    ensures { IfOk result (λ kept. kept ≡ kept_at level snapshot.now) }
{
    match level {
        Level::ReadCommitted => Ok(None),
        Level::RepeatableRead => Ok(Some(snapshot.copy(alloc)?)),
    }
}

fn keep(alloc: Global, coord: &mut Coord, gxid: Gxid, snapshot: &Snapshot) -> Mem<()>
    ensures framed { OnOk result (IsFramed coord.old coord.new) }
    ensures coord { OnOk result (coord_of coord.new ≡ with_work (coord_of coord.old) gxid
        (record ((coord_of coord.old).works gxid.0) { snapshot = kept_at ((coord_of coord.old).works gxid.0).level snapshot.now })) }
{
    if let Some(place) = place_of(coord.works.as_slice(), gxid) {
        let work = &mut coord.works[place].1;
        work.snapshot = kept(alloc, work.level, snapshot)?;
    }
    Ok(())
}

fn take_snapshot(
    alloc: Global,
    coord: &mut Coord,
    gxid: Gxid,
    cid: Cid,
    marks: &mut Vec<Mark>,
) -> Mem<Snapshot>
    requires active { IsActive coord.old.dtx gxid }
    requires drawn { IsDrawn coord.old.dtx }
    ensures value { IfOk result (λ snapshot. snapshot ≡ rule_snapshot coord.old.dtx) }
    ensures framed { OnOk result (IsFramed coord.old coord.new) }
    ensures coord { OnOk result (coord_of coord.new ≡ (takes_snapshot (coord_of coord.old) gxid cid ((coord_of coord.old).works gxid.0)).coord) }
    ensures marks { OnOk result (marks.new.items ≡ marks.old.items ++ (takes_snapshot (coord_of coord.old) gxid cid ((coord_of coord.old).works gxid.0)).marks) }
{
    let snapshot = take(&mut coord.dtx, gxid)?;
    marks.push(Mark::Snap {
        gxid,
        cid,
        snapshot: snapshot.copy(alloc)?,
    })?;
    keep(alloc, coord, gxid, &snapshot)?;
    Ok(snapshot)
}

// The snapshot that the transaction's block keeps.
fn kept_snapshot(alloc: Global, coord: &Coord, gxid: Gxid) -> Mem<Option<Snapshot>>
    ensures { IfOk result (λ snapshot. snapshot ≡ ((coord_of coord.now).works gxid.0).snapshot) }
{
    match find(coord.works.as_slice(), gxid) {
        Some(work) => work.snapshot.copy(alloc),
        None => Ok(None),
    }
}

fn read(
    alloc: Global,
    coord: &mut Coord,
    gxid: Gxid,
    cid: Cid,
    marks: &mut Vec<Mark>,
) -> Mem<Option<Snapshot>>
    requires active { IsActive coord.old.dtx gxid }
    requires drawn { IsDrawn coord.old.dtx }
    ensures value { IfOk result (λ snapshot. snapshot ≡ (reads_by (coord_of coord.old) gxid cid ((coord_of coord.old).works gxid.0) ((coord_of coord.old).works gxid.0).snapshot).snapshot) }
    ensures framed { OnOk result (IsFramed coord.old coord.new) }
    ensures coord { OnOk result (coord_of coord.new ≡ (reads_by (coord_of coord.old) gxid cid ((coord_of coord.old).works gxid.0) ((coord_of coord.old).works gxid.0).snapshot).coord) }
    ensures marks { OnOk result (marks.new.items ≡ marks.old.items ++ (reads_by (coord_of coord.old) gxid cid ((coord_of coord.old).works gxid.0) ((coord_of coord.old).works gxid.0).snapshot).marks) }
{
    match kept_snapshot(alloc, coord, gxid)? {
        Some(snapshot) => Ok(Some(snapshot)),
        None => Ok(Some(take_snapshot(alloc, coord, gxid, cid, marks)?)),
    }
}

// LOCK TABLE reads nothing.
pub(crate) fn read_for(
    alloc: Global,
    coord: &mut Coord,
    gxid: Gxid,
    cid: Cid,
    line: &Stmt,
    marks: &mut Vec<Mark>,
) -> Mem<Option<Snapshot>>
    requires active { IsActive coord.old.dtx gxid }
    requires drawn { IsDrawn coord.old.dtx }
    ensures value { IfOk result (λ snapshot. snapshot ≡ (reads_for (coord_of coord.old) gxid cid ((coord_of coord.old).works gxid.0) line.now).snapshot) }
    ensures framed { OnOk result (IsFramed coord.old coord.new) }
    ensures coord { OnOk result (coord_of coord.new ≡ (reads_for (coord_of coord.old) gxid cid ((coord_of coord.old).works gxid.0) line.now).coord) }
    ensures marks { OnOk result (marks.new.items ≡ marks.old.items ++ (reads_for (coord_of coord.old) gxid cid ((coord_of coord.old).works gxid.0) line.now).marks) }
{
    match line {
        Stmt::Lock(_, _) => Ok(None),
        _ => read(alloc, coord, gxid, cid, marks),
    }
}

// The snapshot of the transactions, which doesn't live.
pub(crate) fn snapshot_of(dtx: &Dtx) -> Mem<Snapshot>
    requires { IsDrawn dtx.now }
    ensures { IfOk result (λ snapshot. snapshot ≡ rule_snapshot dtx.now) }
{
    dtx.final_snapshot()
}
