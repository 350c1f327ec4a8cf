// How a round of the detector begins, and whose graph it awaits.
ghost use Rattle.std.specs.Prelude.{◌≡◌, ◌<◌, ◌^◌, true, IfOk, OnOk};
ghost use Rattle.gx_rules.specs.AtCoordinator as turns;
ghost use Rattle.gx_rules.specs.Rounds as rounds;
ghost use Rattle.gx_coord.specs.Books.{IsFramed, coord_of};

use crate::coord::Coord;
use crate::event::one_out;
use gx_ids::{Mem, Node, Seq};
use gx_msg::{Message, Out};
use gx_script::Script;
use std::alloc::Global;

// Whether a round may begin.
pub(crate) fn can_begin(coord: &Coord) -> bool
    ensures { result ≡ rounds.can_begin coord.now.script.value (coord_of coord.now) }
{
    coord.script.detector && coord.detector.idle()
}

// The number of the last round that began.
pub(crate) fn last_round(coord: &Coord) -> u64
    ensures { result ≡ (coord_of coord.now).rounds }
{
    coord.detector.round()
}

// The next round begins, and asks each segment for its graph.
pub(crate) fn begin_round(script: &Script, coord: &mut Coord) -> Mem<Seq<Out>>
    requires segments { coord.old.detector.segments ≡ script.now.segments }
    requires number { coord.old.detector.begun < 2 ^ 62 }
    requires admitted { rounds.can_begin script.now (coord_of coord.old) ≡ true }
    ensures framed { OnOk result (IsFramed coord.old coord.new) }
    ensures coord { OnOk result (coord_of coord.new ≡ (rounds.begins_round script.now (coord_of coord.old)).coord) }
    ensures outs { IfOk result (λ outs. outs ≡ (rounds.begins_round script.now (coord_of coord.old)).outs) }
{
    let outs = coord.detector.start()?;
    Ok(Seq::from_vec(outs))
}

// Whether a round runs in which the segment hasn't reported yet.
pub(crate) fn awaits_graph(coord: &Coord, node: Node) -> bool
    ensures { result ≡ rounds.awaits_graph (coord_of coord.now) node }
{
    coord.detector.awaits(node)
}

// A segment whose graph is awaited is asked for it again.
pub(crate) fn collect_again(alloc: Global, coord: &Coord, node: Node) -> Mem<Seq<Out>>
    ensures { IfOk result (λ outs. outs ≡ (turns.resends (coord_of coord.now) node (turns.awaited_collect (coord_of coord.now) node)).outs) }
{
    if awaits_graph(coord, node) {
        one_out(alloc, node, Message::Collect(last_round(coord)))
    } else {
        Ok(Seq::new(alloc))
    }
}
