// Whether numbers are left.
ghost use Rattle.std.specs.Prelude.{◌≡◌};
ghost use Rattle.gx_rules.specs.Segments.{Seg};
ghost use Rattle.gx_segment.specs.Room.{has_room};
ghost use Rattle.gx_segment.specs.Steps.{IsSegment};

use crate::segment::Segment;

const LIMIT: u64 = 1 << 62;

impl Segment {
    /// Whether numbers are left for one more event here.
    pub fn has_room(&self) -> bool
        ghost s: { Seg }
        requires { IsSegment self.now s }
        ensures { result ≡ has_room s }
    {
        self.clock < LIMIT && self.sent < LIMIT
    }
}
