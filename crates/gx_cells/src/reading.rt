// What is asked of cells, and changes nothing.
ghost use Rattle.std.specs.Prelude.{◌≡◌, ◌<◌, false, true, length};
ghost use Rattle.std.specs.List.{list_any};
ghost use Rattle.gx_coord.specs.Left.{left_of};
ghost use Rattle.gx_ids.specs.declared.ids.SessionId.{SessionId as Id};
ghost use Rattle.gx_outside.specs.Shelves.{Shelf};
ghost use Rattle.gx_rules.specs.AtCoordinator.{awaited, is_unfinished_there};
ghost use Rattle.gx_rules.specs.Coordinators.{Coord as RuleCoord};
ghost use Rattle.gx_rules.specs.Segments.{Seg};
ghost use Rattle.gx_segment.specs.Steps.{IsSegment};
ghost use Rattle.gx_store.specs.Schedule.{is_exec};
ghost use Rattle.gx_waits.specs.Claims.{is_of};
ghost use Rattle.gx_cells.specs.CoordKept.{IsCoordApart, coordinator_apart};
ghost use Rattle.gx_cells.specs.CoordViews.{coord_data};
ghost use Rattle.gx_cells.specs.Kept.{segment_apart};
ghost use Rattle.gx_cells.specs.Views.{data_of};

use crate::coord_cell::CoordCell;
use crate::coord_history::CoordHistory;
use crate::history::History;
use crate::inbox::Inbox;
use crate::segment_cell::SegmentCell;
use gx_coord::Coord;
use gx_coord::left::Left;
use gx_ids::{Gxid, Node, SessionId};
use gx_outside::Journal;
use gx_segment::Segment;
use gx_store::Steps;

impl<J: Journal> CoordCell<J> {
    /// What it has done.
    pub fn steps(&self) -> &Steps
        ensures { result.now ≡ self.now.steps }
    {
        &self.history.steps
    }

    /// What a session has left. It is told while the cell isn't spent.
    pub fn left(&self, session: SessionId) -> Left
        ensures { self.now.spent ≡ false → result ≡ left_of self.now.script (coord_data self.now) session }
    {
        if self.spent {
            return Left::Nothing;
        }
        left_there(&self.history, self.inboxes.as_slice(), &self.coord, session)
    }

    /// Whether some session has a line without an answer, an open or failed block, or a line left. It is told while the cell isn't spent.
    pub fn unfinished(&self) -> bool
        ensures none { self.now.spent ≡ false → result ≡ false → (id : Id) → id.0 < length self.now.script.sessions → is_unfinished_there self.now.script (coord_data self.now) id ≡ false }
        ensures some { self.now.spent ≡ false → result ≡ true → (id : Id) × (id.0 < length self.now.script.sessions) × (is_unfinished_there self.now.script (coord_data self.now) id ≡ true) }
    {
        !self.spent && unfinished_there(&self.history, self.inboxes.as_slice(), &self.coord)
    }

    /// Whether a segment's answer is awaited for a transaction, and is that of an EXEC. It is told while the cell isn't spent.
    pub fn awaits_exec(&self, segment: Node, gxid: Gxid) -> bool
        ensures { self.now.spent ≡ false → result ≡ is_exec (awaited (coord_data self.now) gxid segment) }
    {
        !self.spent
            && awaits_there(
                &self.history,
                self.inboxes.as_slice(),
                &self.coord,
                segment,
                gxid,
            )
    }
}

fn left_there(history: &CoordHistory, inboxes: &[Inbox], coord: &Coord, session: SessionId) -> Left
    ghost c: { RuleCoord }
    requires apart { (shelf : Shelf) × IsCoordApart history.now inboxes.now coord.now shelf }
    requires is { c ≡ coordinator_apart history.now inboxes.now }
    ensures { result ≡ left_of history.now.script.value c session }
{
    coord.left(session)
}

fn unfinished_there(history: &CoordHistory, inboxes: &[Inbox], coord: &Coord) -> bool
    ghost c: { RuleCoord }
    requires apart { (shelf : Shelf) × IsCoordApart history.now inboxes.now coord.now shelf }
    requires is { c ≡ coordinator_apart history.now inboxes.now }
    ensures none { result ≡ false → (id : Id) → id.0 < length history.now.script.value.sessions → is_unfinished_there history.now.script.value c id ≡ false }
    ensures some { result ≡ true → (id : Id) × (id.0 < length history.now.script.value.sessions) × (is_unfinished_there history.now.script.value c id ≡ true) }
{
    coord.unfinished()
}

fn awaits_there(
    history: &CoordHistory,
    inboxes: &[Inbox],
    coord: &Coord,
    segment: Node,
    gxid: Gxid,
) -> bool
    ghost c: { RuleCoord }
    requires apart { (shelf : Shelf) × IsCoordApart history.now inboxes.now coord.now shelf }
    requires is { c ≡ coordinator_apart history.now inboxes.now }
    ensures { result ≡ is_exec (awaited c gxid segment) }
{
    coord.awaits_exec(segment, gxid)
}

impl<J: Journal> SegmentCell<J> {
    /// Its node.
    pub fn node(&self) -> Node
        ensures { result ≡ self.now.node }
    {
        self.history.node
    }

    /// Whether a transaction waits there. It is told while the cell isn't spent.
    pub fn waits(&self, gxid: Gxid) -> bool
        ensures { self.now.spent ≡ false → result ≡ list_any (is_of gxid) (data_of self.now).locks.waits }
    {
        !self.spent && waits_there(&self.history, &self.inbox, &self.segment, gxid)
    }
}

fn waits_there(history: &History, inbox: &Inbox, segment: &Segment, gxid: Gxid) -> bool
    ghost s: { Seg }
    requires segment { IsSegment segment.now s }
    requires is { s ≡ segment_apart history.now inbox.now.source.received }
    ensures { result ≡ list_any (is_of gxid) s.locks.waits }
{
    segment.waits(gxid)
}
