// Which node's next step comes first.
ghost use Rattle.std.specs.Prelude.{◌≡◌, length, map};
ghost use Rattle.gx_merge.specs.Merging.{IsEarliest, sooner};

use crate::merging::NodeHistory;

/// A node's next step: the node's place, and the step's clock.
#[derive(Clone, Copy)]
pub struct Front {
    pub place: usize,
    pub clock: u64,
}

/// The node whose next step has the least clock, of several the first one.
pub fn earliest(histories: &[NodeHistory], fronts: &[usize]) -> Option<Front>
    requires { length fronts.now ≡ length histories.now }
    ensures { IsEarliest (map (λ h. h.steps) histories.now) fronts.now (length histories.now) result }
{
    let mut earliest = None;
    for place in 0..histories.len() {
        if let Some(step) = histories[place].steps.get(fronts[place]) {
            earliest = Some(earlier(earliest, place, step.stamp().clock));
        }
    }
    earliest
}

// The earlier of two, of which the second stands at a greater place.
fn earlier(first: Option<Front>, place: usize, clock: u64) -> Front
    ensures { sooner first (record { place = place; clock = clock }) ≡ Some result }
{
    match first {
        Some(front) if front.clock <= clock => front,
        _ => Front { place, clock },
    }
}
