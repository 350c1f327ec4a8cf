// Where the marks that tell of a transaction's rows begin, so that no look for them goes further back.
ghost use Rattle.std.specs.Prelude.{◌≡◌, ◌≢◌, ◌≤◌, ◌||◌, drop, length, Some, OnOk, unwrap_or};
ghost use Rattle.std.specs.BTreeMap.{get};
ghost use Rattle.gx_dsnap.specs.Gxids.{gxid_cmp};
ghost use Rattle.gx_ids.specs.declared.ids.Gxid.{Gxid as OneGxid};
ghost use Rattle.gx_legal.specs.Own.{IsOwn, first_with, noted};
ghost use Rattle.gx_store.specs.Marks.{is_same_gxid};

use crate::moment::Moment;
use gx_ids::{Gxid, Mem};
use gx_store::Mark;
use std::collections::BTreeMap;

// The place that is noted for the transaction, or else this one.
fn first_or(firsts: &BTreeMap<Gxid, usize>, gxid: Gxid, place: usize) -> usize
    ensures { result ≡ unwrap_or (get gxid_cmp firsts.now gxid) place }
{
    match firsts.get(&gxid) {
        Some(first) => *first,
        None => place,
    }
}

fn set_first(firsts: &mut BTreeMap<Gxid, usize>, gxid: Gxid, first: usize) -> Mem<()>
    ensures there { OnOk result (get gxid_cmp firsts.new gxid ≡ Some first) }
    ensures elsewhere { OnOk result ((g : OneGxid) → g.0 ≢ gxid.0 → get gxid_cmp firsts.new g ≡ get gxid_cmp firsts.old g) }
{
    firsts.insert(gxid, first)?;
    Ok(())
}

// Notes the place, where the transaction has none yet.
fn note_first(firsts: &mut BTreeMap<Gxid, usize>, gxid: Gxid, place: usize) -> Mem<()>
    ensures { OnOk result ((g : OneGxid) → get gxid_cmp firsts.new g ≡ noted place (is_same_gxid gxid g) (get gxid_cmp firsts.old g)) }
{
    let first = first_or(firsts, gxid, place);
    set_first(firsts, gxid, first)?;
    Ok(())
}

fn note_both(firsts: &mut BTreeMap<Gxid, usize>, gxid: Gxid, other: Gxid, place: usize) -> Mem<()>
    ensures { OnOk result ((g : OneGxid) → get gxid_cmp firsts.new g ≡ noted place (is_same_gxid gxid g || is_same_gxid other g) (get gxid_cmp firsts.old g)) }
{
    note_first(firsts, gxid, place)?;
    note_first(firsts, other, place)?;
    Ok(())
}

/// Notes a mark that stands at the place, behind all that were noted.
pub(crate) fn note_mark(firsts: &mut BTreeMap<Gxid, usize>, mark: &Mark, place: usize) -> Mem<()>
    ensures { OnOk result ((g : OneGxid) → get gxid_cmp firsts.new g ≡ first_with g mark.now place (get gxid_cmp firsts.old g)) }
{
    match mark {
        Mark::Write { gxid, rid, .. } => note_both(firsts, *gxid, rid.gxid, place),
        Mark::Skip { gxid, .. } => note_first(firsts, *gxid, place),
        _ => Ok(()),
    }
}

fn rest(marks: &[Mark], first: usize) -> &[Mark]
    requires { first ≤ length marks.now }
    ensures { result.now ≡ drop first marks.now }
{
    &marks[first..]
}

/// The marks before the moment from the first on that tells of the transaction's rows.
pub fn own_marks<'a>(moment: &Moment<'a, '_>, gxid: Gxid) -> &'a [Mark]
    ensures { IsOwn gxid moment.now.before.now result.now }
{
    let count = moment.before.len();
    let first = first_or(&moment.tally.firsts, gxid, count);
    rest(moment.before, first)
}
