// The places of each session's lines.
ghost use Rattle.std.specs.Prelude.{◌≡◌, ◌<◌, All, IfOk, OnOk, length, ◌++◌, ◌∷◌, [], replicate, get_or, slice_set};
ghost use Rattle.gx_coord.specs.Places.{AreIndexed};

use gx_ids::{Mem, Seq};
use gx_script::Line;
use std::alloc::Global;

// For each of so many sessions the places of its lines, rising.
pub(crate) fn places_of(alloc: Global, lines: &[Line], sessions: usize) -> Mem<Vec<Seq<usize>>>
    requires { All (λ line. line.session.0 < sessions) lines.now }
    ensures { IfOk result (λ places. AreIndexed lines.now sessions places.items) }
{
    let mut places = no_places(alloc, sessions)?;
    for place in 0..lines.len() {
        add(&mut places, usize::from(lines[place].session.0), place)?;
    }
    Ok(places)
}

fn no_places(alloc: Global, sessions: usize) -> Mem<Vec<Seq<usize>>>
    ensures { IfOk result (λ places. places.items ≡ replicate sessions []) }
{
    let mut places = Vec::with_capacity(alloc, sessions)?;
    for _session in 0..sessions {
        places.push(Seq::new(alloc))?;
    }
    Ok(places)
}

// One more place of a session's.
fn add(places: &mut Vec<Seq<usize>>, session: usize, place: usize) -> Mem<()>
    requires { session < length places.old.items }
    ensures { OnOk result (places.new.items ≡ slice_set places.old.items session (get_or places.old.items session [] ++ place ∷ [])) }
{
    places[session].push(place)
}
