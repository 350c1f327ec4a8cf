ghost use Rattle.std.specs.Prelude.{◌≡◌, ◌≤◌};
ghost use Rattle.std.specs.Option.{option_copied};
ghost use Rattle.gx_rows.specs.Truncated.{IsTruncated};
ghost use Rattle.gx_rows.specs.Counts.{counts, shown_of};

use crate::shows::{shown, visible};
use crate::{Version, XidMap};
use gx_dsnap::Snapshot;
use gx_ids::{Cid, Gxid, Lxid};

/// Whether a version counts before and after the horizon is raised. One at or below the snapshot's `xmin` changes nothing: only
/// transactions that the snapshot sees are forgotten.
pub fn visible_across(
    v: &Version,
    map: &mut XidMap,
    horizon: Gxid,
    snap: &Snapshot,
    own: Option<Lxid>,
    cid: Cid,
) -> (bool, bool)
    requires { horizon.0 ≤ snap.now.xmin.0 }
    ensures before { result.0 ≡ counts v.now map.old snap.now own cid }
    ensures after { result.1 ≡ counts v.now map.new snap.now own cid }
    ensures same { result.1 ≡ result.0 }
    ensures dropped { IsTruncated map.old horizon map.new }
{
    let before = visible(v, map, snap, own, cid);
    map.truncate(horizon);
    (before, visible(v, map, snap, own, cid))
}

/// The version that a row shows before and after the horizon is raised, which is the same where the
/// horizon is at or below the snapshot's `xmin`.
pub fn shown_across<'a>(
    list: &'a [Version],
    map: &mut XidMap,
    horizon: Gxid,
    snap: &Snapshot,
    own: Option<Lxid>,
    cid: Cid,
) -> (Option<&'a Version>, Option<&'a Version>)
    requires { horizon.0 ≤ snap.now.xmin.0 }
    ensures before { option_copied result.0 ≡ shown_of list.now map.old snap.now own cid }
    ensures after { option_copied result.1 ≡ shown_of list.now map.new snap.now own cid }
    ensures same { option_copied result.1 ≡ option_copied result.0 }
    ensures dropped { IsTruncated map.old horizon map.new }
{
    let before = shown(list, map, snap, own, cid);
    map.truncate(horizon);
    (before, shown(list, map, snap, own, cid))
}
