ghost use Rattle.std.specs.Prelude.{◌<◌, ◌≤◌, ◌+◌, ◌*◌, ℕ, length, Contains, OnOk};
ghost use Rattle.gx_detect.specs.Reducing.{AreNoted, AreNotedBut, AreTakenOut, IsCounted, IsDone, IsFollowed, rest_of};
ghost use Rattle.gx_detect.specs.Wants.{AreListed};

use crate::place::Place;
use crate::rest::Rest;
use crate::wants::Wants;
use gx_ids::Mem;
use gx_waits::PlacedEdge;

/// Takes out edges that lack what they need, again and again.
pub fn follow(edges: &[PlacedEdge], wants: &Wants, rest: &mut Rest) -> Mem<()>
    requires listed { AreListed edges.now (length edges.now) wants.now }
    requires counted { IsCounted edges.now rest.old }
    requires noted { AreNoted wants.now.aim edges.now rest.old }
    ensures counted { OnOk result (IsCounted edges.now rest.new) }
    ensures done { OnOk result (IsDone wants.now.aim edges.now rest.new) }
    ensures followed { OnOk result (IsFollowed wants.now.aim edges.now rest.old rest.new) }
{
    while let Some(place) = rest.next_freed() {
        release(edges, wants, rest, place)?;
    }
    Ok(())
}

// Takes out the edges that need the place, if none counts there.
fn release(edges: &[PlacedEdge], wants: &Wants, rest: &mut Rest, place: Place) -> Mem<()>
    requires listed { AreListed edges.now (length edges.now) wants.now }
    requires counted { IsCounted edges.now rest.old }
    requires noted { AreNotedBut place wants.now.aim edges.now rest.old }
    ensures counted { OnOk result (IsCounted edges.now rest.new) }
    ensures noted { OnOk result (AreNoted wants.now.aim edges.now rest.new) }
    ensures followed { OnOk result (IsFollowed wants.now.aim edges.now rest.old rest.new) }
    ensures work { OnOk result (3 * length (rest_of edges.now rest.new) + length rest.new.freed.items ≤ 3 * length (rest_of edges.now rest.old) + length rest.old.freed.items) }
{
    if rest.tally.count(place) > 0 {
        return Ok(());
    }
    take_out_all(edges, rest, wants.at(place))?;
    Ok(())
}

/// Takes out those of the edges at these places of the list that are left.
pub fn take_out_all(edges: &[PlacedEdge], rest: &mut Rest, indexes: &[usize]) -> Mem<()>
    requires indexes { (k : ℕ) → Contains indexes.now k → k < length edges.now }
    requires counted { IsCounted edges.now rest.old }
    ensures counted { OnOk result (IsCounted edges.now rest.new) }
    ensures out { OnOk result (AreTakenOut edges.now indexes.now rest.old rest.new) }
{
    for index in indexes {
        rest.take_out(edges, *index)?;
    }
    Ok(())
}
