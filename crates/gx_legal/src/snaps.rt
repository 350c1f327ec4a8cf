// Whether a snapshot may be taken.
ghost use Rattle.std.specs.Prelude.{◌≡◌, ◌↔◌, IfOk, IsTrue, true};
ghost use Rattle.std.specs.BTreeSet.{keys};
ghost use Rattle.std.specs.List.{list_all};
ghost use Rattle.gx_dsnap.specs.Snapshot.{sees};
ghost use Rattle.gx_store.specs.Language.{IsScript};
ghost use Rattle.gx_store.specs.Legal.{LegalSnap};
ghost use Rattle.gx_store.specs.Marks.{is_ended as has_ended};
ghost use Rattle.gx_legal.specs.Moments.{point_of};
ghost use Rattle.gx_legal.specs.Snaps.{SeesCommits, SeesEnded};

use crate::deed::{Act, Deed};
use crate::moment::Moment;
use crate::own::own_marks;
use crate::seats::{is_ended_at, unsettled_at};
use crate::working::is_by_command;
use gx_dsnap::Snapshot;
use gx_ids::{Cid, Gxid, Mem};
use std::alloc::Global;
use std::collections::BTreeSet;

// Whether the snapshot sees all of these.
fn sees_all(gxids: &BTreeSet<Gxid>, snapshot: &Snapshot) -> bool
    ensures { result ≡ list_all (sees snapshot.now) (keys gxids.now) }
{
    gxids.iter().all(|gxid| snapshot.sees(*gxid))
}

// Whether it sees all that have committed.
fn sees_commits(moment: &Moment<'_, '_>, snapshot: &Snapshot) -> bool
    ensures { IsTrue result ↔ SeesCommits moment.now.before.now snapshot.now }
{
    sees_all(&moment.tally.committed, snapshot)
}

// Whether it doesn't see the transaction, or this one has ended.
fn has_ended_if_seen(moment: &Moment<'_, '_>, snapshot: &Snapshot, gxid: Gxid) -> bool
    ensures { IsTrue result ↔ (sees snapshot.now gxid ≡ true → has_ended moment.now.before.now gxid ≡ true) }
{
    !snapshot.sees(gxid) || is_ended_at(moment, gxid)
}

// Whether all that it sees have ended. Those below a number have, and the first that is seen and has not ends the loop.
fn sees_ended(moment: &Moment<'_, '_>, snapshot: &Snapshot) -> bool
    ensures { IsTrue result ↔ SeesEnded moment.now.before.now snapshot.now }
{
    for number in unsettled_at(moment)..snapshot.xmax.0 {
        if !has_ended_if_seen(moment, snapshot, Gxid(number)) {
            return false;
        }
    }
    true
}

/// Whether the command may take this snapshot.
pub fn is_legal_snap(
    alloc: Global,
    moment: &Moment<'_, '_>,
    command: (Gxid, Cid),
    snapshot: &Snapshot,
) -> Mem<bool>
    requires { IsScript moment.now.script.now }
    ensures { IfOk result (λ is. IsTrue is ↔ LegalSnap moment.now.script.now (point_of moment.now) command.0 command.1 snapshot.now) }
{
    if !sees_commits(moment, snapshot) {
        return Ok(false);
    }
    if !sees_ended(moment, snapshot) {
        return Ok(false);
    }
    let deed = Deed {
        gxid: command.0,
        cid: command.1,
        marks: moment.before,
        own: own_marks(moment, command.0),
        act: Act::Snap,
    };
    is_by_command(alloc, moment, &deed)
}
