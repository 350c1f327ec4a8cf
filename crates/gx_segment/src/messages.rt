// What comes to a segment, message by message.
ghost use Rattle.std.specs.Prelude.{◌≡◌, true, false, [], None, IfOk, OnOk};
ghost use Rattle.gx_node.specs.Orders.{IsLaterBy, Took};
ghost use Rattle.gx_rules.specs.AtSegment.{on_event, on_message};
ghost use Rattle.gx_rules.specs.Machine.{seg_can};
ghost use Rattle.gx_slices.specs.Agrees.{IsHeld};
ghost use Rattle.gx_segment.specs.Before.{Before};
ghost use Rattle.gx_segment.specs.Done.{HasDone, came};
ghost use Rattle.gx_segment.specs.Reports.{report_after, report_behind, report_in};

use crate::collecting::{LastReport, collect};
use crate::done::{Done, nothing};
use crate::executing::exec;
use crate::ordering::take;
use crate::starting::resume;
use gx_dsnap::Snapshot;
use gx_dtx::order::Order;
use gx_ids::{Cid, Duplicate, Gxid, Mem, Node, Seq, Shared};
use gx_msg::Message;
use gx_node::Suspended;
use gx_outside::{Gate, Journal};
use gx_script::Script;
use gx_slices::Held;
use gx_store::{Mark, NodeEvent};
use gx_tree::{Level, Slice};
use std::alloc::Global;

// Takes an event. Deliveries come to a segment, and slices that have waited go on.
pub(crate) fn take_event<J: Journal, G: Gate>(
    alloc: Global,
    node: Node,
    script: &Script,
    held: &mut Held,
    horizon: &mut Gxid,
    report: &mut LastReport,
    event: NodeEvent,
    journal: &mut J,
    gate: &G,
    marks: &mut Vec<Mark>,
) -> Mem<Done>
    ghost was: { Before }
    requires node { node ≡ was.seg.node }
    requires script { script.now ≡ was.script }
    requires held { IsHeld was.script.tables held.old was.seg }
    requires horizon { horizon.old ≡ was.seg.horizon }
    requires report { report.old ≡ report_in was.seg }
    requires admitted { seg_can was.script was.seg event ≡ true }
    requires blank { marks.old.items ≡ [] }
    ensures done { IfOk result (λ done. HasDone was.script.tables held.new horizon.new (came marks.new.items done) (on_event was.script was.seg event done.fails)) }
    ensures report { OnOk result (report.new ≡ report_behind was.seg event) }
    ensures took { IfOk result (λ done. Took (J.shelf journal.old) (J.shelf journal.new) done.fails (on_event was.script was.seg event done.fails).item) }
    ensures later { IsLaterBy (J.shelf journal.old) (J.shelf journal.new) (on_event was.script was.seg event false).item }
{
    match event {
        NodeEvent::Deliver { from: _, envelope } => {
            let done = take_message(
                alloc,
                node,
                script,
                held,
                horizon,
                report,
                &envelope.message,
                journal,
                gate,
                marks,
            );
            drop(envelope);
            done
        }
        NodeEvent::Resume(gxid) => resume(alloc, node, script, held, gxid, gate, marks),
        _ => Ok(nothing()),
    }
}

// A command of which nothing was done yet.
fn just_come(
    alloc: Global,
    cid: Cid,
    level: Level,
    snapshot: &Shared<Option<Snapshot>>,
    slice: &Shared<Slice>,
) -> Mem<Suspended>
    ensures { IfOk result (λ command. command ≡ record { cid = cid; level = level; snapshot = snapshot.now; slice = slice.now; count = 0; row = None; rows = [] }) }
{
    let snapshot = snapshot.get().copy(alloc)?;
    let slice = slice.get().copy(alloc)?;
    Ok(Suspended {
        cid,
        level,
        snapshot,
        slice,
        count: 0,
        row: None,
        rows: Seq::new(alloc),
    })
}

// Takes a message, of which it copies what it keeps.
pub(crate) fn take_message<J: Journal, G: Gate>(
    alloc: Global,
    node: Node,
    script: &Script,
    held: &mut Held,
    horizon: &mut Gxid,
    report: &mut LastReport,
    message: &Message,
    journal: &mut J,
    gate: &G,
    marks: &mut Vec<Mark>,
) -> Mem<Done>
    ghost was: { Before }
    requires node { node ≡ was.seg.node }
    requires script { script.now ≡ was.script }
    requires held { IsHeld was.script.tables held.old was.seg }
    requires horizon { horizon.old ≡ was.seg.horizon }
    requires report { report.old ≡ report_in was.seg }
    requires blank { marks.old.items ≡ [] }
    ensures done { IfOk result (λ done. HasDone was.script.tables held.new horizon.new (came marks.new.items done) (on_message was.script was.seg done.fails message.now)) }
    ensures report { OnOk result (report.new ≡ report_after was.seg message.now) }
    ensures took { IfOk result (λ done. Took (J.shelf journal.old) (J.shelf journal.new) done.fails (on_message was.script was.seg done.fails message.now).item) }
    ensures later { IsLaterBy (J.shelf journal.old) (J.shelf journal.new) (on_message was.script was.seg false message.now).item }
{
    match message {
        Message::Exec {
            gxid,
            cid,
            level,
            snapshot,
            horizon: low,
            slice,
        } => {
            let command = just_come(alloc, *cid, *level, snapshot, slice)?;
            exec(
                alloc, node, script, held, horizon, *gxid, command, *low, gate, marks,
            )
        }
        Message::Prepare(gxid) => {
            take(
                alloc,
                node,
                held,
                *horizon,
                *gxid,
                Order::Prepare,
                journal,
                marks,
            )
        }
        Message::Commit(gxid) => take(
            alloc,
            node,
            held,
            *horizon,
            *gxid,
            Order::Commit,
            journal,
            marks,
        ),
        Message::CommitPrepared(gxid) => {
            take(
                alloc,
                node,
                held,
                *horizon,
                *gxid,
                Order::CommitPrepared,
                journal,
                marks,
            )
        }
        Message::Abort(gxid) => take(
            alloc,
            node,
            held,
            *horizon,
            *gxid,
            Order::Abort,
            journal,
            marks,
        ),
        Message::Forget(gxid) => take(
            alloc,
            node,
            held,
            *horizon,
            *gxid,
            Order::Forget,
            journal,
            marks,
        ),
        Message::Collect(round) => collect(alloc, node, held, report, *round, marks),
        Message::Answer(_, _) | Message::Graph(_, _) | Message::Up => Ok(nothing()),
    }
}
