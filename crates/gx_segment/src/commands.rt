// What becomes of a command that comes.
ghost use Rattle.std.specs.Prelude.{◌≡◌, ◌≤◌, ◌&&◌, ◌||◌, is_some, nat_lt, not};
ghost use Rattle.std.specs.BTreeMap.{get};
ghost use Rattle.std.specs.BTreeSet.{contains};
ghost use Rattle.gx_dsnap.specs.Gxids.{gxid_cmp};
ghost use Rattle.gx_node.specs.Phases.{local_of, phase_of};
ghost use Rattle.gx_rules.specs.Fits.{is_waiting, reads_nothing};
ghost use Rattle.gx_rules.specs.Maps.{each_below};
ghost use Rattle.gx_slices.specs.Agrees.{IsHeld, local_in};
ghost use Rattle.gx_segment.specs.Before.{Before};
ghost use Rattle.gx_segment.specs.Ways as way;
ghost use Rattle.gx_segment.specs.Ways.{IsWay, again_at, fits_here, way_of};

use crate::entries::Entries;
use gx_ids::{Cid, Gxid};
use gx_node::{Local, Phase, Suspended, is_right_slice, reads_nothing};
use gx_script::Script;
use gx_slices::Held;
use std::collections::BTreeSet;

/// A command that is new runs, the last one is answered again, and any other is nothing.
#[derive(Clone, Copy)]
pub enum Way {
    Runs,
    Repeats,
    Nothing,
}

// The way of a command.
pub(crate) fn find_way(
    script: &Script,
    held: &Held,
    horizon: Gxid,
    gxid: Gxid,
    command: &Suspended,
    low: Gxid,
) -> Way
    ghost was: { Before }
    requires script { script.now ≡ was.script }
    requires held { IsHeld was.script.tables held.now was.seg }
    requires horizon { horizon ≡ was.seg.horizon }
    ensures { IsWay was.script was.seg gxid command.now low result }
{
    if gxid < horizon {
        return Way::Nothing;
    }
    if !fits(script, held, gxid, command, low) {
        return Way::Nothing;
    }
    way_at(&held.entries, gxid, command.cid)
}

fn fits(script: &Script, held: &Held, gxid: Gxid, command: &Suspended, low: Gxid) -> bool
    ghost was: { Before }
    requires script { script.now ≡ was.script }
    requires held { IsHeld was.script.tables held.now was.seg }
    requires alive { was.seg.horizon.0 ≤ gxid.0 }
    ensures { result ≡ fits_here was.script was.seg gxid command.now low }
{
    low <= gxid
        && is_none_below(&held.holders, low)
        && has_what_it_reads(command)
        && is_right_slice(script.tables.as_slice(), gxid, command.cid, &command.slice)
        && waits_not(&held.entries, gxid, command.cid)
}

// It has a snapshot, or reads nothing.
fn has_what_it_reads(command: &Suspended) -> bool
    ensures { result ≡ (is_some command.now.snapshot || reads_nothing command.now.slice) }
{
    command.snapshot.is_some() || reads_nothing(&command.slice)
}

// The command isn't new, or no slice of its transaction waits.
fn waits_not(entries: &Entries, gxid: Gxid, cid: Cid) -> bool
    ensures { result ≡ not (nat_lt (local_in (get gxid_cmp entries.now gxid)).last cid.0 && is_waiting (local_in (get gxid_cmp entries.now gxid))) }
{
    match entries.get(&gxid) {
        Some(entry) => is_free_for(&entry.local, cid),
        None => is_free(0, false, cid),
    }
}

fn is_free_for(local: &Local, cid: Cid) -> bool
    ensures { result ≡ not (nat_lt (local_of local.now).last cid.0 && is_waiting (local_of local.now)) }
{
    is_free(local.last, local.is_waiting(), cid)
}

fn is_free(last: u32, waits: bool, cid: Cid) -> bool
    ensures { result ≡ not (nat_lt last cid.0 && waits) }
{
    !(last < cid.0 && waits)
}

// Nobody below a gxid is in the set.
fn is_none_below(holders: &BTreeSet<Gxid>, low: Gxid) -> bool
    ensures { result ≡ each_below low.0 (λ n. not (contains gxid_cmp holders.now (record { 0 = n }))) }
{
    match holders.first() {
        Some(first) => low <= *first,
        None => true,
    }
}

fn way_at(entries: &Entries, gxid: Gxid, cid: Cid) -> Way
    ensures { result ≡ way_of (local_in (get gxid_cmp entries.now gxid)) cid }
{
    match entries.get(&gxid) {
        Some(entry) => way_in(entry.local.last, cid, entry.local.phase),
        None => way_in(0, cid, Phase::Reading),
    }
}

fn way_in(last: u32, cid: Cid, phase: Phase) -> Way
    ensures { result ≡ way.way_in last cid (phase_of phase) }
{
    match phase {
        Phase::Reading | Phase::Writing => {
            if last < cid.0 {
                Way::Runs
            } else {
                again(last, cid)
            }
        }
        Phase::Prepared | Phase::Committed => again(last, cid),
        Phase::Forgotten(_) | Phase::Aborted => Way::Nothing,
    }
}

fn again(last: u32, cid: Cid) -> Way
    ensures { result ≡ again_at last cid }
{
    if cid.0 == last {
        Way::Repeats
    } else {
        Way::Nothing
    }
}
