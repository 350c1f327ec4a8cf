ghost use Rattle.std.specs.Prelude.{◌≡◌, ◌∷◌, [], List};
ghost use Rattle.gx_locks.specs.declared.hold.Hold.{Hold};

use crate::hold::Hold;
use std::marker::Model;

/// Two holds. Contracts see them as a list.
#[derive(Drop)]
pub struct Pair {
    holds: [Hold; 2],
}

impl Model for Pair {
    ghost Value = { List Hold };

    ghost view = { λ a. a.holds };
}

impl Pair {
    pub fn new(first: Hold, second: Hold) -> Pair
        ensures { result ≡ first ∷ second ∷ [] }
    {
        Pair {
            holds: [first, second],
        }
    }

    pub fn as_slice(&self) -> &[Hold]
        ensures { result.now ≡ self.now }
    {
        &self.holds
    }

    /// The one and the other.
    pub fn parts(&self) -> (Hold, Hold)
        ensures { self.now ≡ result.0 ∷ result.1 ∷ [] }
    {
        (self.holds[0], self.holds[1])
    }
}
