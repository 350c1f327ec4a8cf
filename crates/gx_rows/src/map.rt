ghost use Rattle.std.specs.Prelude.{◌≡◌, ◌≢◌, ◌+◌, ◌≤◌, [], true, is_some, nat_le, nat_lt, ◌&&◌, if◌then◌else◌, None, Some, IfNone, IfOk, OnOk, OnErr, IfSome, slice_get};
ghost use Rattle.std.specs.BTreeMap.{IsEmpty, IsLowerBound, IsUnchanged, Updates, get, insert_entry};
ghost use Rattle.gx_ids.specs.declared.ids.Gxid.{Gxid};
ghost use Rattle.gx_ids.specs.declared.ids.Lxid.{Lxid};
ghost use Rattle.gx_rows.specs.Truncated.{IsTruncated};
ghost use Rattle.gx_rows.specs.Xids.{assigned, entry_of, gxid_cmp, gxid_of, is_given, kept, lxid_cmp, lxid_of, status_of, with_entry, with_status};
ghost use Rattle.gx_rows.specs.Keys.{AreLeft, HasEntry, IsForgotten, is_done};

use crate::entry::XidEntry;
use crate::status::LocalStatus;
use gx_ids::{Gxid, Lxid, Mem, OutOfMemory};
use std::alloc::Global;
use std::collections::BTreeMap;
use std::marker::Model;

/// The transactions that wrote at a segment. Each gets an lxid at its first write there, by which its status is known for good. From the
/// horizon on each is known by both numbers. Of those that the horizon passes only who hasn't committed keeps an entry, so that what is
/// kept doesn't grow with those that have.
#[derive(Drop)]
pub struct XidMap {
    horizon: Gxid,
    lxids: BTreeMap<Gxid, Lxid>,
    entries: BTreeMap<Lxid, XidEntry>,
    given: u64,
}

impl Model for XidMap {
    ghost use Rattle.gx_rows.specs.Xids.{Xids};
    ghost use Rattle.gx_rows.specs.Keys.{IsWhole};

    ghost Value = { Xids };

    ghost view = { λ a. record { horizon = a.horizon; lxids = a.lxids.entries; entries = a.entries.entries; given = a.given } };

    ghost invariant = { λ a. IsWhole a.horizon a.lxids a.entries a.given };
}

impl XidMap {
    /// A map without entries.
    pub fn new(alloc: Global) -> Mem<XidMap>
        ensures { IfOk result (λ map. map ≡ record { horizon = record { 0 = 0 }; lxids = []; entries = []; given = 0 }) }
    {
        Ok(XidMap {
            horizon: Gxid(0),
            lxids: BTreeMap::new(alloc),
            entries: BTreeMap::new(alloc),
            given: 0,
        })
    }

    /// The gxid below which no gxid is known any more.
    pub fn horizon(&self) -> Gxid
        ensures { result ≡ self.now.horizon }
    {
        self.horizon
    }

    /// The lxid of a gxid, none below the horizon.
    pub fn lxid_of(&self, gxid: Gxid) -> Option<Lxid>
        ensures value { result ≡ lxid_of self.now gxid }
        ensures back { IfSome result (λ lxid. gxid_of self.now lxid ≡ Some gxid) }
        ensures entry { IfSome result (λ lxid. is_some (entry_of self.now lxid) ≡ true) }
        ensures given { IfSome result (λ lxid. is_given self.now lxid ≡ true) }
    {
        self.lxids.get(&gxid).copied()
    }

    /// The gxid of an lxid, none below the horizon.
    pub fn gxid_of(&self, lxid: Lxid) -> Option<Gxid>
        ensures value { result ≡ gxid_of self.now lxid }
        ensures back { IfSome result (λ gxid. lxid_of self.now gxid ≡ Some lxid) }
    {
        let entry = self.entries.get(&lxid)?;
        if self.horizon <= entry.gxid {
            Some(entry.gxid)
        } else {
            None
        }
    }

    /// What became of a transaction here. One that never wrote here is running.
    pub fn status(&self, lxid: Lxid) -> LocalStatus
        ensures { result ≡ status_of self.now lxid }
    {
        match self.entries.get(&lxid) {
            Some(entry) => entry.status,
            None => status_without(lxid, self.given),
        }
    }

    /// What became of a transaction here, and its gxid, as `status` and `gxid_of` say.
    pub fn standing(&self, lxid: Lxid) -> (LocalStatus, Option<Gxid>)
        ensures status { result.0 ≡ status_of self.now lxid }
        ensures gxid { result.1 ≡ gxid_of self.now lxid }
    {
        match self.entries.get(&lxid) {
            Some(entry) => (entry.status, gxid_from(self.horizon, entry.gxid)),
            None => (status_without(lxid, self.given), None),
        }
    }

    /// Gives a transaction the next lxid, at its first write here. Where all numbers are given out it fails as for want of memory.
    pub fn assign(&mut self, gxid: Gxid) -> Mem<Lxid>
        requires fresh { lxid_of self.old gxid ≡ None }
        requires high { self.old.horizon.0 ≤ gxid.0 }
        ensures next { IfOk result (λ lxid. lxid.0 ≡ self.old.given + 1) }
        ensures ok { OnOk result (self.new ≡ assigned self.old gxid) }
        ensures found { IfOk result (λ lxid. lxid_of self.new gxid ≡ Some lxid) }
        ensures others { OnOk result ((g : Gxid) → g.0 ≢ gxid.0 → lxid_of self.new g ≡ lxid_of self.old g) }
        ensures err { OnErr result (self.new ≡ self.old) }
    {
        let Some(given) = self.given.checked_add(1) else {
            return Err(OutOfMemory);
        };
        let lxid = Lxid(given);
        add_entry(&mut self.lxids, &mut self.entries, gxid, lxid)?;
        self.given = given;
        Ok(lxid)
    }

    /// Sets what became of a transaction here. Who has committed stays so once the horizon has passed it; of one that was never given out
    /// nothing is kept.
    pub fn set_status(&mut self, lxid: Lxid, status: LocalStatus)
        ensures value { self.new ≡ with_status self.old lxid status }
        ensures set { is_given self.old lxid ≡ true → (status_of self.old lxid ≡ LocalStatus.Committed → status ≡ LocalStatus.Committed) → status_of self.new lxid ≡ status }
        ensures others { (l : Lxid) → l.0 ≢ lxid.0 → status_of self.new l ≡ status_of self.old l }
    {
        restate(&mut self.entries, lxid, status);
    }

    /// Raises the horizon, where this one is greater, and forgets who the transactions below it are. Every status stays.
    pub fn truncate(&mut self, horizon: Gxid)
        ensures { IsTruncated self.old horizon self.new }
    {
        if self.horizon < horizon {
            self.horizon = horizon;
            drop_entries(&mut self.lxids, &mut self.entries, horizon);
        }
    }
}

fn gxid_from(horizon: Gxid, gxid: Gxid) -> Option<Gxid>
    ensures { result ≡ kept horizon gxid }
{
    if gxid < horizon { None } else { Some(gxid) }
}

fn status_without(lxid: Lxid, given: u64) -> LocalStatus
    ensures { result ≡ (if nat_lt 0 lxid.0 && nat_le lxid.0 given then LocalStatus.Committed else LocalStatus.Running) }
{
    if lxid.0 > 0 && lxid.0 <= given {
        LocalStatus::Committed
    } else {
        LocalStatus::Running
    }
}

fn restate(entries: &mut BTreeMap<Lxid, XidEntry>, lxid: Lxid, status: LocalStatus)
    ensures { entries.new.entries ≡ with_entry lxid status (get lxid_cmp entries.old lxid) entries.old.entries }
{
    if let Some(entry) = entries.get_mut(&lxid) {
        entry.status = status;
    }
}

// Adds both numbers, or neither.
fn add_entry(
    lxids: &mut BTreeMap<Gxid, Lxid>,
    entries: &mut BTreeMap<Lxid, XidEntry>,
    gxid: Gxid,
    lxid: Lxid,
) -> Mem<()>
    requires { get gxid_cmp lxids.old gxid ≡ None }
    ensures lxids { OnOk result (lxids.new.entries ≡ insert_entry gxid_cmp lxids.old.entries gxid lxid) }
    ensures entries { OnOk result (entries.new.entries ≡ insert_entry lxid_cmp entries.old.entries lxid (record { gxid = gxid; status = LocalStatus.Running })) }
    ensures found { OnOk result (Updates gxid_cmp lxids.old lxids.new gxid (Some lxid)) }
    ensures back { OnOk result (Updates lxid_cmp entries.old entries.new lxid (Some (record { gxid = gxid; status = LocalStatus.Running }))) }
    ensures lxids_stay { OnErr result (IsUnchanged lxids.old lxids.new) }
    ensures entries_stay { OnErr result (IsUnchanged entries.old entries.new) }
{
    lxids.insert(gxid, lxid)?;
    let status = LocalStatus::Running;
    match entries.insert(lxid, XidEntry { gxid, status }) {
        Ok(_) => Ok(()),
        Err(_) => {
            lxids.remove(&gxid);
            Err(OutOfMemory)
        }
    }
}

// Takes the gxids below the horizon out, and the entries of those that have committed.
fn drop_entries(
    lxids: &mut BTreeMap<Gxid, Lxid>,
    entries: &mut BTreeMap<Lxid, XidEntry>,
    horizon: Gxid,
)
    requires { (g : Gxid) (l : Lxid) → get gxid_cmp lxids.old g ≡ Some l → HasEntry entries.old g l }
    ensures left { AreLeft lxids.old entries.old horizon lxids.new entries.new }
    ensures high { (g : Gxid) (l : Lxid) → get gxid_cmp lxids.new g ≡ Some l → horizon.0 ≤ g.0 }
{
    while let Some((gxid, lxid)) = first_entry(lxids) {
        if horizon <= gxid {
            return;
        }
        lxids.pop_first();
        forget(entries, lxid);
    }
}

fn forget(entries: &mut BTreeMap<Lxid, XidEntry>, lxid: Lxid)
    ensures { IsForgotten lxid entries.old entries.new }
{
    if has_committed(entries, lxid) {
        entries.remove(&lxid);
    }
}

fn has_committed(entries: &BTreeMap<Lxid, XidEntry>, lxid: Lxid) -> bool
    ensures { result ≡ is_done (get lxid_cmp entries.now lxid) }
{
    match entries.get(&lxid) {
        Some(entry) => entry.status == LocalStatus::Committed,
        None => false,
    }
}

fn first_entry(lxids: &BTreeMap<Gxid, Lxid>) -> Option<(Gxid, Lxid)>
    ensures first { IfSome result (λ e. slice_get lxids.now.entries 0 ≡ Some e) }
    ensures found { IfSome result (λ e. get gxid_cmp lxids.now e.0 ≡ Some e.1) }
    ensures least { IfSome result (λ e. IsLowerBound gxid_cmp lxids.now e.0) }
    ensures empty { IfNone result (IsEmpty lxids.now) }
{
    let (gxid, lxid) = lxids.first_key_value()?;
    Some((*gxid, *lxid))
}
