// The versions of a row that nobody is shown any more.
ghost use Rattle.std.specs.Prelude.{◌≡◌, ◌≢◌, ◌≤◌, true, Option};
ghost use Rattle.std.specs.Option.{ForSome};
ghost use Rattle.gx_dsnap.specs.declared.snapshot.Snapshot.{Snapshot};
ghost use Rattle.gx_ids.specs.declared.ids.Cid.{Cid};
ghost use Rattle.gx_ids.specs.declared.ids.Lxid.{Lxid};
ghost use Rattle.gx_ids.specs.declared.rid.Rid.{Rid};
ghost use Rattle.gx_rows.specs.Counts.{shown_of};
ghost use Rattle.gx_rows.specs.Rows.{is_unaborted, newest_of, versions_of};
ghost use Rattle.gx_rows.specs.Xids.{status_of};
ghost use Rattle.gx_sweep.specs.Swept.{has_aborted, is_past, is_settled, swept};

use gx_ids::{Gxid, Rid};
use gx_rows::{LocalStatus, Version, VersionList, Versions, XidMap};

/// Drops the dead versions of a row: those of transactions that have aborted here, and those that a later version of the row has
/// overtaken which is committed here by a transaction below the horizon, or by one whose gxid isn't known any more. The row's newest version
/// stays, and so does what it shows to each snapshot from the horizon on, but to a reader that has aborted here itself.
pub fn sweep(rows: &mut Versions, rid: Rid, map: &XidMap, horizon: Gxid)
    ensures swept { versions_of rows.new rid ≡ swept map.now horizon (versions_of rows.old rid) }
    ensures others { (q : Rid) → q ≢ rid → versions_of rows.new q ≡ versions_of rows.old q }
    ensures newest { newest_of rows.new rid map.now ≡ newest_of rows.old rid map.now }
    ensures shown { (snap : Snapshot) (own : Option Lxid) (cid : Cid) → horizon.0 ≤ snap.xmin.0 → ForSome own (λ l. is_unaborted (status_of map.now l) ≡ true)
        → shown_of (versions_of rows.new rid) map.now snap own cid ≡ shown_of (versions_of rows.old rid) map.now snap own cid }
{
    if let Some(versions) = rows.of_mut(rid) {
        drop_dead(versions, map, horizon);
    }
}

// From the newest on, until one is settled, who hasn't aborted stays.
fn drop_dead(versions: &mut VersionList, map: &XidMap, horizon: Gxid)
    ensures { versions.new ≡ swept map.now horizon versions.old }
{
    let mut place = versions.len();
    let mut overtaken = false;
    while place > 0 {
        place -= 1;
        if overtaken || has_aborted(map, &versions.as_slice()[place]) {
            drop(versions.remove(place));
        } else {
            overtaken = is_settled(map, horizon, &versions.as_slice()[place]);
        }
    }
}

fn has_aborted(map: &XidMap, version: &Version) -> bool
    ensures { result ≡ has_aborted map.now version.now }
{
    map.status(version.lxid) == LocalStatus::Aborted
}

fn is_settled(map: &XidMap, horizon: Gxid, version: &Version) -> bool
    ensures { result ≡ is_settled map.now horizon version.now }
{
    let (status, gxid) = map.standing(version.lxid);
    status == LocalStatus::Committed && is_past(horizon, gxid)
}

fn is_past(horizon: Gxid, gxid: Option<Gxid>) -> bool
    ensures { result ≡ is_past horizon gxid }
{
    match gxid {
        Some(gxid) => gxid < horizon,
        None => true,
    }
}
