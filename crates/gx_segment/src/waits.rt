// Who waits at a segment.
ghost use Rattle.std.specs.Prelude.{◌≡◌, ◌==◌, not, true, length, IfOk, IfSome};
ghost use Rattle.std.specs.List.{list_any};
ghost use Rattle.gx_waits.specs.Claims.{is_of};
ghost use Rattle.gx_locks.specs.Graphs.{graph_at};
ghost use Rattle.gx_locks.specs.Locks.{may_take, next_ready};
ghost use Rattle.gx_rules.specs.Segments.{Seg};
ghost use Rattle.gx_segment.specs.Steps.{IsSegment};

use crate::segment::Segment;
use gx_ids::{Gxid, Mem};
use gx_waits::LocalGraph;

impl Segment {
    /// The least transaction whose wait here is ready.
    pub fn ready(&self) -> Option<Gxid>
        ghost s: { Seg }
        requires { IsSegment self.now s }
        ensures value { result ≡ next_ready s.locks }
        ensures ready { IfSome result (λ gxid. may_take s.locks gxid ≡ true) }
    {
        self.held.locks.ready()
    }

    /// Whether a transaction waits here and its wait is ready.
    pub fn can_resume(&self, gxid: Gxid) -> bool
        ghost s: { Seg }
        requires { IsSegment self.now s }
        ensures { result ≡ may_take s.locks gxid }
    {
        self.held.locks.is_ready(gxid)
    }

    /// Whether a transaction waits here.
    pub fn waits(&self, gxid: Gxid) -> bool
        ghost s: { Seg }
        requires { IsSegment self.now s }
        ensures { result ≡ list_any (is_of gxid) s.locks.waits }
    {
        self.held.locks.is_waiting(gxid)
    }

    /// Whether some transaction waits here.
    pub fn any_wait(&self) -> bool
        ghost s: { Seg }
        requires { IsSegment self.now s }
        ensures { result ≡ not (length s.locks.waits == 0) }
    {
        !self.held.locks.waits().is_empty()
    }

    /// The edges from the waits here to the holds that they meet.
    pub fn graph(&self) -> Mem<LocalGraph>
        ghost s: { Seg }
        requires { IsSegment self.now s }
        ensures { IfOk result (λ graph. graph ≡ graph_at s.locks) }
    {
        self.held.locks.graph()
    }
}
