// The sessions by the places of their next lines.
ghost use Rattle.std.specs.Prelude.{◌≡◌, ◌≢◌, ℕ, ◌==◌, if◌then◌else◌, Some, OnOk};
ghost use Rattle.std.specs.Ordering.{nat_cmp};
ghost use Rattle.gx_agenda.specs.Moves.{offered, withdrawn};
ghost use Rattle.gx_agenda.specs.VecMap.{at};

use crate::standing::Move;
use crate::vec_map::VecMap;
use gx_ids::{Mem, SessionId};
use gx_script::Line;

// Adds a line where it is its session's first.
pub(crate) fn add_first(next: &mut VecMap<usize, SessionId>, place: usize, line: &Line) -> Mem<()>
    ensures first { line.now.number ≡ 1 → OnOk result ((p : ℕ) → at nat_cmp next.new p ≡ (if p == place then Some line.now.session else at nat_cmp next.old p)) }
    ensures other { line.now.number ≢ 1 → OnOk result ((p : ℕ) → at nat_cmp next.new p ≡ at nat_cmp next.old p) }
{
    if line.number == 1 {
        next.insert(place, line.session)?;
    }
    Ok(())
}

// A session's next line is another one, or there is none any more.
pub(crate) fn go_on(next: &mut VecMap<usize, SessionId>, moved: Move, session: SessionId) -> Mem<()>
    ensures { OnOk result ((p : ℕ) → at nat_cmp next.new p ≡ offered moved.to session (withdrawn moved.from (at nat_cmp next.old)) p) }
{
    withdraw(next, moved.from);
    offer(next, moved.to, session)
}

fn withdraw(next: &mut VecMap<usize, SessionId>, from: Option<usize>)
    ensures { (p : ℕ) → at nat_cmp next.new p ≡ withdrawn from (at nat_cmp next.old) p }
{
    if let Some(place) = from {
        next.remove(place);
    }
}

fn offer(next: &mut VecMap<usize, SessionId>, to: Option<usize>, session: SessionId) -> Mem<()>
    ensures { OnOk result ((p : ℕ) → at nat_cmp next.new p ≡ offered to session (at nat_cmp next.old) p) }
{
    if let Some(place) = to {
        next.insert(place, session)?;
    }
    Ok(())
}
