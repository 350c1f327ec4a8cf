// Entries by gxid, and the horizon.
ghost use Rattle.std.specs.Prelude.{◌≡◌, ◌<◌, ◌≤◌, None, Some, IfNone, IfSome, slice_get};
ghost use Rattle.std.specs.BTreeMap.{IsEmpty, IsLowerBound, get, keys};
ghost use Rattle.gx_ids.specs.declared.ids.Gxid.{Gxid};
ghost use Rattle.gx_rows.specs.Xids.{gxid_cmp};

use gx_ids::Gxid;
use std::collections::BTreeMap;

/// Takes out the entries of the gxids below the horizon, and no other.
pub fn drop_below<X: Drop>(entries: &mut BTreeMap<Gxid, X>, horizon: Gxid)
    ensures kept { (g : Gxid) → horizon.0 ≤ g.0 → get gxid_cmp entries.new g ≡ get gxid_cmp entries.old g }
    ensures gone { (g : Gxid) → g.0 < horizon.0 → get gxid_cmp entries.new g ≡ None }
{
    while let Some(first) = first_key(entries) {
        if horizon <= first {
            return;
        }
        entries.pop_first();
    }
}

fn first_key<X>(entries: &BTreeMap<Gxid, X>) -> Option<Gxid>
    ensures first { IfSome result (λ g. slice_get (keys entries.now) 0 ≡ Some g) }
    ensures least { IfSome result (IsLowerBound gxid_cmp entries.now) }
    ensures empty { IfNone result (IsEmpty entries.now) }
{
    let (gxid, _) = entries.first_key_value()?;
    Some(*gxid)
}
