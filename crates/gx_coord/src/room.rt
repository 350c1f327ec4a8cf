// Whether numbers are left.
ghost use Rattle.std.specs.Prelude.{◌≡◌, ◌+◌, ◌^◌, ◌&&◌, nat_lt};
ghost use Rattle.std.specs.List.{list_all};
ghost use Rattle.gx_rules.specs.Coordinators.{Coord as RuleCoord};
ghost use Rattle.gx_coord.specs.Room.{has_room};
ghost use Rattle.gx_coord.specs.Steps.{IsCoord};

use crate::coord::Coord;

const LIMIT: u64 = 1 << 62;

impl Coord {
    /// Whether numbers are left for one more event here.
    pub fn has_room(&self) -> bool
        ghost c: { RuleCoord }
        requires { IsCoord self.now c }
        ensures { result ≡ has_room self.now.script.value c }
    {
        are_numbers_left(self)
    }
}

fn are_numbers_left(coord: &Coord) -> bool
    ensures { result ≡ (nat_lt (coord.now.clock + 1) (2 ^ 62) && (nat_lt coord.now.detector.begun (2 ^ 62) && list_all (λ sent. nat_lt sent (2 ^ 62)) coord.now.sent.items)) }
{
    is_early(coord.clock) && is_low(coord.detector.round()) && are_low(coord.sent.as_slice())
}

// Whether a clock is below the limit by one more.
fn is_early(clock: u64) -> bool
    ensures { result ≡ nat_lt (clock + 1) (2 ^ 62) }
{
    clock < LIMIT - 1
}

fn is_low(number: u64) -> bool
    ensures { result ≡ nat_lt number (2 ^ 62) }
{
    number < LIMIT
}

// Whether all of these numbers are below the limit.
fn are_low(numbers: &[u64]) -> bool
    ensures { result ≡ list_all (λ sent. nat_lt sent (2 ^ 62)) numbers.now }
{
    numbers.iter().all(|number| is_low(*number))
}
