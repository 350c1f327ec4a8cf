// A transaction's entry, and whether it is among those that hold locks.
ghost use Rattle.std.specs.Prelude.{◌≡◌, ◌≢◌, Some, OnOk};
ghost use Rattle.std.specs.BTreeMap.{get};
ghost use Rattle.std.specs.BTreeSet.{contains};
ghost use Rattle.gx_ids.specs.declared.ids.Gxid.{Gxid};
ghost use Rattle.gx_dsnap.specs.Gxids.{gxid_cmp};
ghost use Rattle.gx_node.specs.Phases.{local_of};
ghost use Rattle.gx_slices.specs.Agrees.{local_in, rows_in};

use crate::held::Entry;
use crate::kept::KeptRows;
use gx_ids::{Gxid, Mem};
use gx_node::Local;
use std::alloc::Global;
use std::collections::{BTreeMap, BTreeSet};

// Takes out the transaction's entry, or makes one where nothing of it has come here.
pub(crate) fn take_entry(alloc: Global, entries: &mut BTreeMap<Gxid, Entry>, gxid: Gxid) -> Entry
    ensures local { local_of result.local ≡ local_in (get gxid_cmp entries.old gxid) }
    ensures kept { result.kept ≡ rows_in (get gxid_cmp entries.old gxid) }
    ensures others { (h : Gxid) → h.0 ≢ gxid.0 → get gxid_cmp entries.new h ≡ get gxid_cmp entries.old h }
{
    match entries.remove(&gxid) {
        Some(entry) => entry,
        None => Entry {
            local: Local::new(),
            kept: KeptRows::new(alloc),
        },
    }
}

pub(crate) fn put_entry(entries: &mut BTreeMap<Gxid, Entry>, gxid: Gxid, entry: Entry) -> Mem<()>
    ensures here { OnOk result (get gxid_cmp entries.new gxid ≡ Some entry) }
    ensures others { OnOk result ((h : Gxid) → h.0 ≢ gxid.0 → get gxid_cmp entries.new h ≡ get gxid_cmp entries.old h) }
{
    drop(entries.insert(gxid, entry)?);
    Ok(())
}

// The transaction is among the holders from now on, or isn't.
pub(crate) fn set_holder(holders: &mut BTreeSet<Gxid>, gxid: Gxid, holds: bool) -> Mem<()>
    ensures here { OnOk result (contains gxid_cmp holders.new gxid ≡ holds) }
    ensures others { OnOk result ((h : Gxid) → h.0 ≢ gxid.0 → contains gxid_cmp holders.new h ≡ contains gxid_cmp holders.old h) }
{
    if holds {
        holders.insert(gxid)?;
    } else {
        holders.remove(&gxid);
    }
    Ok(())
}
