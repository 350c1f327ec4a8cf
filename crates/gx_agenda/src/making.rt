// The queue of lines of which none was started.
ghost use Rattle.std.specs.Prelude.{◌≡◌, ◌<◌, ℕ, All, IfOk, OnOk, [], length, replicate, slice_get, slice_set, Some};
ghost use Rattle.gx_store.specs.Language.{AreLinesNumbered};
ghost use Rattle.gx_agenda.specs.declared.standing.Standing.{Standing as OneStanding};
ghost use Rattle.gx_agenda.specs.FreshQueue.{AreFresh, new_standing, with_place};
ghost use Rattle.gx_agenda.specs.Queued.{AreFirst};

use crate::places::add_first;
use crate::standing::Standing;
use crate::vec_map::VecMap;
use gx_ids::{Mem, Seq, SessionId};
use gx_script::Line;
use std::alloc::Global;

// For each of so many sessions the places of its lines.
pub(crate) fn fresh_standings(alloc: Global, lines: &[Line], sessions: usize) -> Mem<Vec<Standing>>
    requires within { All (λ line. line.session.0 < sessions) lines.now }
    requires numbers { AreLinesNumbered [] lines.now }
    ensures { IfOk result (λ standings. AreFresh lines.now sessions standings.items) }
{
    let mut standings = new_standings(alloc, sessions)?;
    for place in 0..lines.len() {
        add_place(&mut standings, usize::from(lines[place].session.0), place)?;
    }
    Ok(standings)
}

fn new_standings(alloc: Global, sessions: usize) -> Mem<Vec<Standing>>
    ensures { IfOk result (λ standings. standings.items ≡ replicate sessions new_standing) }
{
    let mut standings = Vec::with_capacity(alloc, sessions)?;
    for _session in 0..sessions {
        standings.push(Standing {
            places: Seq::new(alloc),
            started: 0,
            answered: 0,
        })?;
    }
    Ok(standings)
}

// One more place of a session's.
fn add_place(standings: &mut Vec<Standing>, session: usize, place: usize) -> Mem<()>
    requires { session < length standings.old.items }
    ensures { OnOk result ((was : OneStanding) → slice_get standings.old.items session ≡ Some was → standings.new.items ≡ slice_set standings.old.items session (with_place was place)) }
{
    standings[session].places.push(place)
}

// By place, the sessions whose first lines stand there.
pub(crate) fn first_lines(alloc: Global, lines: &[Line]) -> Mem<VecMap<usize, SessionId>>
    ensures { IfOk result (λ next. AreFirst lines.now next) }
{
    let mut next = VecMap::new(alloc);
    for place in 0..lines.len() {
        add_first(&mut next, place, &lines[place])?;
    }
    Ok(next)
}
