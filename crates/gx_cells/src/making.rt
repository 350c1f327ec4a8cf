// New cells of all nodes, joined by links.
ghost use Rattle.std.specs.Prelude.{◌≡◌, [], IfOk, length, map};
ghost use Rattle.gx_outside.specs.Shelves.{AreEmpty};
ghost use Rattle.gx_store.specs.Language.{IsScript};
ghost use Rattle.gx_cells.specs.Closed.{AreClosed, AreNew};

use crate::coord_cell::CoordCell;
use crate::inbox::Inbox;
use crate::segment_cell::SegmentCell;
use gx_ids::{Mem, Node};
use gx_links::link;
use gx_outside::Journal;
use gx_script::Script;
use std::alloc::Global;
use std::sync::Arc;

// The cells of new nodes, with a journal for the coordinator and one for each segment.
pub(crate) fn new_cells<J: Journal>(
    alloc: Global,
    script: Arc<Script, Global>,
    journal: J,
    journals: Vec<J>,
) -> Mem<(CoordCell<J>, Vec<SegmentCell<J>>)>
    requires language { IsScript script.value }
    requires count { length journals.items ≡ script.value.segments }
    requires blank { (J.shelf journal).items ≡ [] }
    requires blanks { AreEmpty (map J.shelf journals.items) }
    ensures closed { IfOk result (λ cells. AreClosed cells.0 cells.1.items) }
    ensures new { IfOk result (λ cells. AreNew script.value cells.0 cells.1.items) }
    ensures coordinators_journal { IfOk result (λ cells. cells.0.shelf ≡ J.shelf journal) }
    ensures segments_journals { IfOk result (λ cells. map (λ s. s.shelf) cells.1.items ≡ map J.shelf journals.items) }
{
    let mut outs = Vec::new(alloc);
    let mut inboxes = Vec::new(alloc);
    let mut segments = Vec::new(alloc);
    for own in journals {
        let (out, source) = link(alloc)?;
        let (back, inward) = link(alloc)?;
        let node = Node(segments.len() as u8 + 1);
        let segment = SegmentCell::new(alloc, script.clone()?, node, back, source, own)?;
        segments.push(segment)?;
        outs.push(out)?;
        inboxes.push(Inbox {
            source: inward,
            again: None,
        })?;
    }
    let coord = CoordCell::new(alloc, script, outs, inboxes, journal)?;
    Ok((coord, segments))
}
