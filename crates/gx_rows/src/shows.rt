ghost use Rattle.std.specs.Prelude.{◌≡◌, ◌&&◌};
ghost use Rattle.std.specs.Option.{option_copied};
ghost use Rattle.gx_rows.specs.Counts.{counts, is_committed, is_own, is_seen, shown_of};
ghost use Rattle.gx_rows.specs.Xids.{gxid_of, status_of};

use crate::{LocalStatus, Version, XidMap};
use gx_dsnap::Snapshot;
use gx_ids::{Cid, Gxid, Lxid};

/// Whether a version counts for a reader: it is the reader's own and of an earlier command, or it is locally committed
/// and the snapshot sees its transaction (PostgreSQL manual 13.2; Lyu et al., SIGMOD 2021). `own` is the reader's lxid
/// here, where it wrote here, and `cid` the command that reads.
pub fn visible(v: &Version, map: &XidMap, snap: &Snapshot, own: Option<Lxid>, cid: Cid) -> bool
    ensures { result ≡ counts v.now map.now snap.now own cid }
{
    is_own(v, own, cid) || has_come(map, snap, v.lxid)
}

// Whether the transaction is committed here, and seen.
fn has_come(map: &XidMap, snap: &Snapshot, lxid: Lxid) -> bool
    ensures { result ≡ (is_committed (status_of map.now lxid) && is_seen snap.now (gxid_of map.now lxid)) }
{
    let (status, gxid) = map.standing(lxid);
    status == LocalStatus::Committed && is_seen(snap, gxid)
}

// Whether the reader wrote a version by an earlier command.
fn is_own(v: &Version, own: Option<Lxid>, cid: Cid) -> bool
    ensures { result ≡ is_own v.now own cid }
{
    match own {
        None => false,
        Some(own) => v.lxid == own && v.cid < cid,
    }
}

// Whether the transaction is seen. One whose gxid isn't known any more ended below the horizon, and is.
fn is_seen(snap: &Snapshot, gxid: Option<Gxid>) -> bool
    ensures { result ≡ is_seen snap.now gxid }
{
    match gxid {
        None => true,
        Some(gxid) => snap.sees(gxid),
    }
}

/// The version that a row shows to a reader: the last of its versions that counts, and none where none does.
pub fn shown<'a>(
    list: &'a [Version],
    map: &XidMap,
    snap: &Snapshot,
    own: Option<Lxid>,
    cid: Cid,
) -> Option<&'a Version>
    ensures { option_copied result ≡ shown_of list.now map.now snap.now own cid }
{
    list.iter().rev().find(|v| visible(v, map, snap, own, cid))
}
