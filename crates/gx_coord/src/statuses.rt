// Answers of segments for a transaction's status.
ghost use Rattle.std.specs.Prelude.{◌≡◌, ◌<◌, [], Bool, true, false, IfOk};
ghost use Rattle.gx_dtx.specs.Deciding.{own_failure};
ghost use Rattle.gx_dtx.specs.Rules.{on_reply};
ghost use Rattle.gx_node.specs.Orders.{IsLaterBy, Took};
ghost use Rattle.gx_rules.specs.AtCoordinator as turns;
ghost use Rattle.gx_coord.specs.Books.{coord_of};
ghost use Rattle.gx_coord.specs.Turns.{IsFit, IsBusy, IsTurn, answers_line};

use crate::coord::Coord;
use crate::ends::follow;
use gx_dtx::Outcome;
use gx_ids::{Duplicate, Gxid, Mem, Node, Seq};
use gx_msg::{Out, Reply};
use gx_outside::Journal;
use gx_script::Script;
use gx_store::Mark;
use std::alloc::Global;

// What a turn sends, whether the coordinator's journal failed to take its item, and whom a recheck has named.
#[derive(Drop)]
pub struct Turned {
    pub outs: Seq<Out>,
    pub fails: bool,
    pub victims: Seq<Gxid>,
}

fn is_own(outcome: Outcome) -> bool
    ensures { result ≡ own_failure outcome }
{
    match outcome {
        Outcome::Refused(node) => node.0 == 0,
        _ => false,
    }
}

// The answer is for the transaction's status. With the last promise the journal has to take the decision.
pub(crate) fn take_status<J: Journal>(
    alloc: Global,
    script: &Script,
    coord: &mut Coord,
    gxid: Gxid,
    node: Node,
    reply: &Reply,
    journal: &mut J,
    marks: &mut Vec<Mark>,
) -> Mem<Turned>
    requires same { coord.old.script.value ≡ script.now }
    requires segment { 0 < node.0 }
    requires busy { (fails : Bool) → answers_line (on_reply coord.old.dtx gxid node reply.now fails).out.outcome ≡ true → IsBusy (coord_of coord.old) gxid.0 }
    requires fits { IsFit ((coord_of coord.old).works gxid.0).command }
    ensures turn { IfOk result (λ turned. IsTurn coord.old coord.new marks.old.items marks.new.items (turns.on_status (coord_of coord.old) gxid node reply.now turned.fails)) }
    ensures outs { IfOk result (λ turned. turned.outs ≡ (turns.on_status (coord_of coord.old) gxid node reply.now turned.fails).outs) }
    ensures took { IfOk result (λ turned. Took (J.shelf journal.old) (J.shelf journal.new) turned.fails (turns.on_status (coord_of coord.old) gxid node reply.now turned.fails).item) }
    ensures later { IsLaterBy (J.shelf journal.old) (J.shelf journal.new) (turns.on_status (coord_of coord.old) gxid node reply.now false).item }
    ensures nobody { IfOk result (λ turned. turned.victims ≡ []) }
{
    let reply = reply.copy(alloc)?;
    let out = coord
        .dtx
        .reply(&mut coord.spare.outs, gxid, node, reply, journal)?;
    let fails = is_own(out.outcome);
    let outs = follow(alloc, script, coord, gxid, out, marks)?;
    Ok(Turned {
        outs,
        fails,
        victims: Seq::new(alloc),
    })
}
