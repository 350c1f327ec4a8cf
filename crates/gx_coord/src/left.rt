// What a session has left.
ghost use Rattle.std.specs.Prelude.{◌≡◌, length};
ghost use Rattle.gx_rules.specs.Coordinators.{Coord as RuleCoord};
ghost use Rattle.gx_store.specs.Language.{IsScript};
ghost use Rattle.gx_coord.specs.Books.{coord_of};
ghost use Rattle.gx_coord.specs.Left.{left_of};
ghost use Rattle.gx_coord.specs.Places.{AreIndexed};
ghost use Rattle.gx_coord.specs.Steps.{IsCoord};

use crate::admitted::{is_in_block, is_left};
use crate::books::find_session;
use crate::coord::Coord;
use gx_ids::SessionId;

/// What a session has left: lines to start; none, but a block that is open or failed; or neither.
#[derive(Clone, Copy)]
pub enum Left {
    Lines,
    OpenBlock,
    Nothing,
}

impl Coord {
    /// What a session has left.
    pub fn left(&self, session: SessionId) -> Left
        ghost c: { RuleCoord }
        requires { IsCoord self.now c }
        ensures { result ≡ left_of self.now.script.value c session }
    {
        find_left(self, session)
    }
}

fn find_left(coord: &Coord, session: SessionId) -> Left
    requires language { IsScript coord.now.script.value }
    requires places { AreIndexed coord.now.script.value.lines (length coord.now.script.value.sessions) coord.now.places.items }
    ensures { result ≡ left_of coord.now.script.value (coord_of coord.now) session }
{
    if is_left(coord, session) {
        Left::Lines
    } else if is_in_block(find_session(coord, session)) {
        Left::OpenBlock
    } else {
        Left::Nothing
    }
}
