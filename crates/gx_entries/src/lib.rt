//! Values by gxid, in a list: while they are few it costs less than a tree.
#![tactic(auto)]

ghost use Rattle.std.specs.Prelude.{◌≡◌, ◌<◌, IfNone, IfSome, None, OnOk, Some, length};
ghost use Rattle.std.specs.BTreeMap.{is_at};
ghost use Rattle.std.specs.Map.{lookup};
ghost use Rattle.std.specs.Option.{option_copied};
ghost use Rattle.gx_dsnap.specs.Gxids.{gxid_cmp};
ghost use Rattle.gx_entries.specs.Standing.{IsUpdated, StandsAt};

use gx_ids::{Gxid, Mem};
use std::mem;

/// Where the value of a gxid stands, the first if there are several.
pub fn place_of<V>(entries: &[(Gxid, V)], gxid: Gxid) -> Option<usize>
    ensures there { IfSome result (StandsAt (is_at (gxid_cmp gxid)) entries.now) }
    ensures inside { IfSome result (λ place. place < length entries.now) }
    ensures none { IfNone result (lookup (is_at (gxid_cmp gxid)) entries.now ≡ None) }
{
    for place in 0..entries.len() {
        if entries[place].0 == gxid {
            return Some(place);
        }
    }
    None
}

/// The value of a gxid.
pub fn find<V>(entries: &[(Gxid, V)], gxid: Gxid) -> Option<&V>
    ensures { option_copied result ≡ lookup (is_at (gxid_cmp gxid)) entries.now }
{
    match place_of(entries, gxid) {
        Some(place) => Some(&entries[place].1),
        None => None,
    }
}

/// Sets the value of a gxid.
pub fn put<V: Drop>(entries: &mut Vec<(Gxid, V)>, gxid: Gxid, value: V) -> Mem<()>
    ensures { OnOk result (IsUpdated entries.old.items entries.new.items gxid (Some value)) }
{
    match place_of(entries.as_slice(), gxid) {
        Some(place) => {
            drop(mem::replace(&mut entries[place].1, value));
            Ok(())
        }
        None => {
            entries.push((gxid, value))?;
            Ok(())
        }
    }
}

/// Takes out the value of a gxid, if there is one; where there are several the last of them is handed out.
pub fn take_out<V: Drop>(entries: &mut Vec<(Gxid, V)>, gxid: Gxid) -> Option<V>
    ensures { IsUpdated entries.old.items entries.new.items gxid None }
{
    let mut taken = None;
    while let Some(place) = place_of(entries.as_slice(), gxid) {
        let (_, value) = entries.remove(place);
        drop(mem::replace(&mut taken, Some(value)));
    }
    taken
}
