// Whether a lock is held at every node.
ghost use Rattle.std.specs.Prelude.{◌≡◌, ◌+◌, false};
ghost use Rattle.gx_waits.specs.Claims.{claim as claim_on};
ghost use Rattle.gx_legal.specs.Told.{has_locked as did_lock, held_by as is_held_by, held_from, is_held_below as are_held};

use gx_ids::{Gxid, Table};
use gx_locks::is_same_claim;
use gx_modes::Mode;
use gx_store::Mark;
use gx_waits::{Claim, Object};

/// Whether the transaction holds the mode on the table at the coordinator and at each of so many segments.
pub(crate) fn has_locked(marks: &[Mark], segments: u8, gxid: Gxid, table: Table, mode: Mode) -> bool
    ensures { result ≡ did_lock marks.now segments gxid table mode }
{
    let wanted = claim_of(gxid, Object::Relation(table), mode);
    is_held_below(marks, &wanted, usize::from(segments) + 1)
}

#[tactic(auto, using(crate::proofs::Holding::below_next))]
fn is_held_below(marks: &[Mark], wanted: &Claim, nodes: usize) -> bool
    ensures { result ≡ are_held marks.now wanted.now nodes }
{
    let mut held = true;
    for node in 0..nodes {
        held = held && is_held(marks, node, wanted);
    }
    held
}

fn is_held(marks: &[Mark], node: usize, wanted: &Claim) -> bool
    ensures { result ≡ held_from node wanted.now false marks.now }
{
    for place in (0..marks.len()).rev() {
        if let Some(held) = held_by(node, wanted, &marks[place]) {
            return held;
        }
    }
    false
}

// Whether the claim is held at the node by what the mark does to it there; `None` where it does nothing to it.
fn held_by(node: usize, wanted: &Claim, mark: &Mark) -> Option<bool>
    ensures { result ≡ is_held_by node wanted.now mark.now }
{
    match mark {
        Mark::Hold {
            node: at,
            gxid,
            object,
            mode,
        } => {
            let held = claim_of(*gxid, *object, *mode);
            if usize::from(at.0) == node && is_same_claim(wanted, &held) {
                Some(true)
            } else {
                None
            }
        }
        Mark::Release {
            node: at,
            gxid,
            object,
            mode,
        } => {
            let released = claim_of(*gxid, *object, *mode);
            if usize::from(at.0) == node && is_same_claim(&released, wanted) {
                Some(false)
            } else {
                None
            }
        }
        _ => None,
    }
}

fn claim_of(gxid: Gxid, object: Object, mode: Mode) -> Claim
    ensures { result ≡ claim_on gxid object mode }
{
    Claim { gxid, object, mode }
}
