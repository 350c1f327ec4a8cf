ghost use Rattle.std.specs.Prelude.{◌≡◌, ◌<◌, length, true, slice_get, slice_set, Some};
ghost use Rattle.gx_groups.specs.Seats.{is_known_at};
ghost use Rattle.gx_groups.specs.Standings.{standing_at};
ghost use Rattle.gx_groups.specs.Table.{is_asking as asks, is_holding as holds};
ghost use Rattle.gx_groups.specs.declared.seat.Seat.TheVariants.{Alone};

use gx_ids::SessionId;

/// What a session does about a slot.
#[derive(Clone, Copy)]
pub enum Standing {
    Idle,
    Asking,
    Holding,
}

/// Where a session stands: in the group of a place, which knows what it does, or alone, where nobody holds it up.
#[derive(Clone, Copy)]
pub enum Seat {
    Grouped(u8),
    Alone(Standing),
}

// The seat of a session that there is.
pub(crate) fn seat_of(seats: &[Seat], session: SessionId) -> Seat
    requires { is_known_at (slice_get seats.now session.0) ≡ true }
    ensures { slice_get seats.now session.0 ≡ Some result }
{
    seats[usize::from(session.0)]
}

// A session without a group does something else.
pub(crate) fn stand(seats: &mut Vec<Seat>, session: SessionId, standing: Standing)
    requires { is_known_at (slice_get seats.old.items session.0) ≡ true }
    ensures { seats.new.items ≡ slice_set seats.old.items session.0 (Alone standing) }
{
    seats[usize::from(session.0)] = Seat::Alone(standing);
}

// What a session does, where it is noted for each; one that there isn't is idle.
pub(crate) fn standing_of(standings: &[Standing], session: SessionId) -> Standing
    ensures { result ≡ standing_at standings.now session }
{
    match standings.get(usize::from(session.0)) {
        Some(standing) => *standing,
        None => Standing::Idle,
    }
}

pub(crate) fn is_asking(standing: Standing) -> bool
    ensures { result ≡ asks standing }
{
    standing == Standing::Asking
}

pub(crate) fn is_holding(standing: Standing) -> bool
    ensures { result ≡ holds standing }
{
    standing == Standing::Holding
}

// Notes what a session does.
pub(crate) fn note(standings: &mut Vec<Standing>, session: SessionId, standing: Standing)
    requires { session.0 < length standings.old.items }
    ensures { standings.new.items ≡ slice_set standings.old.items session.0 standing }
{
    standings[usize::from(session.0)] = standing;
}
