// Whether sessions have done all of their lines.
ghost use Rattle.std.specs.Prelude.{◌≡◌, ◌<◌, length, true, false};
ghost use Rattle.gx_ids.specs.declared.ids.SessionId.{SessionId as Id};
ghost use Rattle.gx_store.specs.Language.{IsScript};
ghost use Rattle.gx_coord.specs.Books.{coord_of};
ghost use Rattle.gx_coord.specs.Places.{AreIndexed};
ghost use Rattle.gx_rules.specs.AtCoordinator.{is_unfinished_there};

use crate::admitted::{is_idle, is_in_block, is_left};
use crate::books::find_session;
use crate::coord::Coord;
use gx_ids::SessionId;

fn has_more(coord: &Coord, id: SessionId) -> bool
    requires language { IsScript coord.now.script.value }
    requires places { AreIndexed coord.now.script.value.lines (length coord.now.script.value.sessions) coord.now.places.items }
    ensures { result ≡ is_unfinished_there coord.now.script.value (coord_of coord.now) id }
{
    let session = find_session(coord, id);
    !is_idle(session) || is_in_block(session) || is_left(coord, id)
}

fn id_at(place: usize) -> SessionId
    requires { place < 64 }
    ensures { result ≡ record { 0 = place } }
{
    SessionId(place as u8)
}

// Whether some session isn't finished.
pub(crate) fn unfinished(coord: &Coord) -> bool
    requires language { IsScript coord.now.script.value }
    requires places { AreIndexed coord.now.script.value.lines (length coord.now.script.value.sessions) coord.now.places.items }
    requires sessions { length coord.now.sessions.items ≡ length coord.now.script.value.sessions }
    ensures none { result ≡ false → (id : Id) → id.0 < length coord.now.script.value.sessions → is_unfinished_there coord.now.script.value (coord_of coord.now) id ≡ false }
    ensures some { result ≡ true → (id : Id) × (id.0 < length coord.now.script.value.sessions) × (is_unfinished_there coord.now.script.value (coord_of coord.now) id ≡ true) }
{
    for place in 0..coord.sessions.len() {
        if has_more(coord, id_at(place)) {
            return true;
        }
    }
    false
}
