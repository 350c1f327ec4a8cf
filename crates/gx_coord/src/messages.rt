// What segments tell.
ghost use Rattle.std.specs.Prelude.{◌≡◌, ◌<◌, ◌^◌, [], None, true, false, IfOk, OnOk};
ghost use Rattle.gx_detect.specs.Reports.{IsSegment};
ghost use Rattle.gx_dtx.specs.Table.{IsActive};
ghost use Rattle.gx_node.specs.Orders.{IsLaterBy, Took};
ghost use Rattle.gx_rules.specs.AtCoordinator as turns;
ghost use Rattle.gx_rules.specs.Rounds as rounds;
ghost use Rattle.gx_coord.specs.Books.{coord_of};
ghost use Rattle.gx_coord.specs.Sound.{IsSmallMessage, IsSmallReply, IsSound};
ghost use Rattle.gx_coord.specs.Turns.{IsBusy, IsReady, IsTurn, asks, is_over, left_in};

use crate::completing::complete;
use crate::coord::Coord;
use crate::rechecking::hear;
use crate::replies::{Done, is_asked, is_done, is_taken, note_done, refuse};
use crate::statuses::{Turned, take_status};
use gx_ids::{Cid, Gxid, Mem, Node, Seq};
use gx_msg::{Cause, Message, Out, Reply};
use gx_outside::Journal;
use gx_script::Script;
use gx_store::{Mark, Refused};
use gx_tree::Part;
use gx_waits::LocalGraph;
use std::alloc::Global;

// A command goes on, or is complete.
fn go_on(
    alloc: Global,
    script: &Script,
    coord: &mut Coord,
    gxid: Gxid,
    marks: &mut Vec<Mark>,
) -> Mem<Seq<Out>>
    requires same { coord.old.script.value ≡ script.now }
    requires last { is_over ((coord_of coord.old).works gxid.0).command ≡ true → IsReady (coord_of coord.old) gxid }
    ensures turn { OnOk result (IsTurn coord.old coord.new marks.old.items marks.new.items (turns.goes_on (coord_of coord.old) gxid (left_in ((coord_of coord.old).works gxid.0).command))) }
    ensures outs { IfOk result (λ outs. outs ≡ (turns.goes_on (coord_of coord.old) gxid (left_in ((coord_of coord.old).works gxid.0).command)).outs) }
{
    if is_done(coord, gxid) {
        complete(alloc, script, coord, gxid, marks)
    } else {
        Ok(Seq::new(alloc))
    }
}

// A command is done at a segment.
fn take_done(
    alloc: Global,
    script: &Script,
    coord: &mut Coord,
    gxid: Gxid,
    node: Node,
    done: Done,
    part: &Part,
    marks: &mut Vec<Mark>,
) -> Mem<Seq<Out>>
    requires same { coord.old.script.value ≡ script.now }
    requires sound { IsSound script.now (coord_of coord.old) }
    ensures turn { OnOk result (IsTurn coord.old coord.new marks.old.items marks.new.items
        (turns.on_done (coord_of coord.old) gxid node done.cid done.wrote done.count part.now ((coord_of coord.old).works gxid.0).command)) }
    ensures outs { IfOk result (λ outs. outs ≡ (turns.on_done (coord_of coord.old) gxid node done.cid done.wrote done.count part.now ((coord_of coord.old).works gxid.0).command).outs) }
    ensures small { done.count < 2 ^ 64 }
{
    if is_taken(script, coord, gxid, node, done.cid, part) {
        note_done(alloc, coord, gxid, node, done, part)?;
        go_on(alloc, script, coord, gxid, marks)
    } else {
        Ok(Seq::new(alloc))
    }
}

fn reason(cause: Cause) -> Refused
    ensures { result ≡ turns.reason_of cause }
{
    match cause {
        Cause::Serialization(rid, gxid) => Refused::Serialization(rid, gxid),
        Cause::Overflow => Refused::Overflow,
        Cause::DivisionByZero => Refused::DivisionByZero,
    }
}

// The first segment that can't do a command refuses it.
fn take_failure(
    alloc: Global,
    coord: &mut Coord,
    gxid: Gxid,
    node: Node,
    cid: Cid,
    cause: Cause,
    marks: &mut Vec<Mark>,
) -> Mem<Seq<Out>>
    requires active { asks ((coord_of coord.old).works gxid.0).command node cid ≡ true → IsActive coord.old.dtx gxid }
    requires busy { asks ((coord_of coord.old).works gxid.0).command node cid ≡ true → IsBusy (coord_of coord.old) gxid.0 }
    ensures turn { OnOk result (IsTurn coord.old coord.new marks.old.items marks.new.items (turns.on_failed (coord_of coord.old) gxid node cid cause ((coord_of coord.old).works gxid.0).command)) }
    ensures outs { IfOk result (λ outs. outs ≡ (turns.on_failed (coord_of coord.old) gxid node cid cause ((coord_of coord.old).works gxid.0).command).outs) }
{
    if is_asked(coord, gxid, node, cid) {
        refuse(coord, gxid, reason(cause), marks)
    } else {
        Ok(Seq::new(alloc))
    }
}

// A turn that leaves the journal alone and names nobody.
pub(crate) fn plain(alloc: Global, outs: Seq<Out>) -> Turned
    ensures { result ≡ record { outs = outs; fails = false; victims = [] } }
{
    Turned {
        outs,
        fails: false,
        victims: Seq::new(alloc),
    }
}

// A command is done at a segment, which leaves the journal alone and names nobody.
fn take_part(
    alloc: Global,
    script: &Script,
    coord: &mut Coord,
    gxid: Gxid,
    node: Node,
    done: Done,
    part: &Part,
    marks: &mut Vec<Mark>,
) -> Mem<Turned>
    requires same { coord.old.script.value ≡ script.now }
    requires sound { IsSound script.now (coord_of coord.old) }
    ensures turn { OnOk result (IsTurn coord.old coord.new marks.old.items marks.new.items
        (turns.on_done (coord_of coord.old) gxid node done.cid done.wrote done.count part.now ((coord_of coord.old).works gxid.0).command)) }
    ensures outs { IfOk result (λ turned. turned.outs ≡ (turns.on_done (coord_of coord.old) gxid node done.cid done.wrote done.count part.now ((coord_of coord.old).works gxid.0).command).outs) }
    ensures unfailing { IfOk result (λ turned. turned.fails ≡ false) }
    ensures nobody { IfOk result (λ turned. turned.victims ≡ []) }
    ensures small { done.count < 2 ^ 64 }
{
    let outs = take_done(alloc, script, coord, gxid, node, done, part, marks)?;
    Ok(plain(alloc, outs))
}

// An answer is for a command, or for the transaction's status.
fn take_reply<J: Journal>(
    alloc: Global,
    script: &Script,
    coord: &mut Coord,
    gxid: Gxid,
    node: Node,
    reply: &Reply,
    journal: &mut J,
    marks: &mut Vec<Mark>,
) -> Mem<Turned>
    requires same { coord.old.script.value ≡ script.now }
    requires sound { IsSound script.now (coord_of coord.old) }
    requires segment { 0 < node.0 }
    ensures turn { IfOk result (λ turned. IsTurn coord.old coord.new marks.old.items marks.new.items (turns.on_answer (coord_of coord.old) gxid node turned.fails reply.now)) }
    ensures outs { IfOk result (λ turned. turned.outs ≡ (turns.on_answer (coord_of coord.old) gxid node turned.fails reply.now).outs) }
    ensures took { IfOk result (λ turned. Took (J.shelf journal.old) (J.shelf journal.new) turned.fails (turns.on_answer (coord_of coord.old) gxid node turned.fails reply.now).item) }
    ensures later { IsLaterBy (J.shelf journal.old) (J.shelf journal.new) (turns.on_answer (coord_of coord.old) gxid node false reply.now).item }
    ensures nobody { IfOk result (λ turned. turned.victims ≡ []) }
    ensures small { IsSmallReply reply.now }
{
    match reply {
        Reply::Done {
            cid,
            wrote,
            count,
            part,
        } => {
            let done = Done {
                cid: *cid,
                wrote: *wrote,
                count: *count,
            };
            take_part(alloc, script, coord, gxid, node, done, part.get(), marks)
        }
        Reply::Failed { cid, cause } => {
            let outs = take_failure(alloc, coord, gxid, node, *cid, *cause.get(), marks)?;
            Ok(plain(alloc, outs))
        }
        status => take_status(alloc, script, coord, gxid, node, status, journal, marks),
    }
}

// A graph is for the detector's round.
fn take_graph(
    alloc: Global,
    coord: &mut Coord,
    from: Node,
    round: u64,
    graph: &LocalGraph,
    marks: &mut Vec<Mark>,
) -> Mem<Turned>
    requires segment { IsSegment coord.old.detector.segments from }
    ensures turn { OnOk result (IsTurn coord.old coord.new marks.old.items marks.new.items (rounds.on_graph (coord_of coord.old) from round graph.now)) }
    ensures outs { IfOk result (λ turned. turned.outs ≡ (rounds.on_graph (coord_of coord.old) from round graph.now).outs) }
    ensures unfailing { IfOk result (λ turned. turned.fails ≡ false) }
    ensures item { OnOk result ((rounds.on_graph (coord_of coord.old) from round graph.now).item ≡ None) }
    ensures victims { IfOk result (λ turned. turned.victims ≡ rounds.victims_on_graph (coord_of coord.old) from round graph.now) }
{
    let victims = hear(alloc, coord, from, round, graph, marks)?;
    Ok(Turned {
        outs: Seq::new(alloc),
        fails: false,
        victims,
    })
}

// A message that comes from a segment is only read.
pub(crate) fn take_message<J: Journal>(
    alloc: Global,
    script: &Script,
    coord: &mut Coord,
    from: Node,
    message: &Message,
    journal: &mut J,
    marks: &mut Vec<Mark>,
) -> Mem<Turned>
    requires same { coord.old.script.value ≡ script.now }
    requires sound { IsSound script.now (coord_of coord.old) }
    requires segment { IsSegment coord.old.detector.segments from }
    ensures turn { IfOk result (λ turned. IsTurn coord.old coord.new marks.old.items marks.new.items (turns.on_message (coord_of coord.old) from turned.fails message.now)) }
    ensures outs { IfOk result (λ turned. turned.outs ≡ (turns.on_message (coord_of coord.old) from turned.fails message.now).outs) }
    ensures took { IfOk result (λ turned. Took (J.shelf journal.old) (J.shelf journal.new) turned.fails (turns.on_message (coord_of coord.old) from turned.fails message.now).item) }
    ensures later { IsLaterBy (J.shelf journal.old) (J.shelf journal.new) (turns.on_message (coord_of coord.old) from false message.now).item }
    ensures victims { IfOk result (λ turned. turned.victims ≡ rounds.victims_on_message (coord_of coord.old) from message.now) }
    ensures small { IsSmallMessage message.now }
{
    match message {
        Message::Answer(gxid, reply) => {
            take_reply(alloc, script, coord, *gxid, from, reply, journal, marks)
        }
        Message::Graph(round, graph) => take_graph(alloc, coord, from, *round, graph, marks),
        _ => Ok(plain(alloc, Seq::new(alloc))),
    }
}
