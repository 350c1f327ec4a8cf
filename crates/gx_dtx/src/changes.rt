// What a call makes of one transaction.
ghost use Rattle.std.specs.Prelude.{◌≡◌, ◌∷◌, [], IfOk, OnErr};
ghost use Rattle.gx_dtx.specs.Rules.{commits, aborts, ends_committed, refuses, goes_to};
ghost use Rattle.gx_dtx.specs.Due.{IsMade};
ghost use Rattle.gx_dtx.specs.Nodes.{to_each as messages};
ghost use Rattle.gx_dtx.specs.Orders.{message_of};
ghost use Rattle.gx_dtx.specs.declared.outcome.Outcome.TheVariants as outcome;
ghost use Rattle.gx_dtx.specs.declared.phase.Phase.TheVariants as phase;
ghost use Rattle.gx_msg.specs.declared.message.Message.TheVariants as message;

use crate::order::Order;
use crate::outcome::Outcome;
use crate::phase::Phase;
use crate::taken::Taken;
use crate::txn::Txn;
use gx_ids::{Gxid, Mem, Node, Seq, copies};
use gx_msg::Out;
use std::alloc::Global;

// A list of the nodes, and the order to each of them.
fn told(
    alloc: Global,
    spent: &mut Vec<Out>,
    gxid: Gxid,
    order: Order,
    nodes: &[Node],
) -> Mem<(Seq<Node>, Seq<Out>)>
    ensures { IfOk result (λ told. (told.0 ≡ nodes.now) × (told.1 ≡ messages (message_of order gxid) nodes.now)) }
{
    let outs = order.to_each(alloc, spent, gxid, nodes)?;
    match copies(alloc, nodes) {
        Ok(awaited) => Ok((Seq::from_vec(awaited), outs)),
        Err(fault) => {
            drop(outs);
            Err(fault)
        }
    }
}

// The transaction goes on to a phase, and this is to be sent.
fn go_on(txn: &mut Txn, phase: Phase, outs: Seq<Out>, outcome: Outcome) -> Taken
    ensures { IsMade (goes_to phase outs outcome) txn.old txn.new result }
{
    txn.go_to(phase);
    Taken::sends(outs, outcome)
}

// The transaction has ended by a commit.
pub(crate) fn end_committed(
    alloc: Global,
    spent: &mut Vec<Out>,
    gxid: Gxid,
    txn: &mut Txn,
) -> Mem<Taken>
    ensures value { IfOk result (λ taken. IsMade (ends_committed gxid txn.old.participants) txn.old txn.new taken) }
    ensures err { OnErr result (txn.new ≡ txn.old) }
{
    if txn.participants.is_empty() {
        Ok(Taken::leaves(alloc, Outcome::Committed))
    } else {
        tell_forget(alloc, spent, gxid, txn)
    }
}

fn tell_forget(alloc: Global, spent: &mut Vec<Out>, gxid: Gxid, txn: &mut Txn) -> Mem<Taken>
    ensures value { IfOk result (λ taken. IsMade (goes_to (phase.Ended txn.old.participants) (messages (message.Forget gxid) txn.old.participants) outcome.Committed) txn.old txn.new taken) }
    ensures err { OnErr result (txn.new ≡ txn.old) }
{
    let (awaited, outs) = told(
        alloc,
        spent,
        gxid,
        Order::Forget,
        txn.participants.as_slice(),
    )?;
    Ok(go_on(txn, Phase::Ended(awaited), outs, Outcome::Committed))
}

fn tell_abort(
    alloc: Global,
    spent: &mut Vec<Out>,
    gxid: Gxid,
    txn: &mut Txn,
    outcome: Outcome,
) -> Mem<Taken>
    ensures value { IfOk result (λ taken. IsMade (goes_to (phase.Aborting txn.old.participants) (messages (message.Abort gxid) txn.old.participants) outcome) txn.old txn.new taken) }
    ensures err { OnErr result (txn.new ≡ txn.old) }
{
    let (awaited, outs) = told(
        alloc,
        spent,
        gxid,
        Order::Abort,
        txn.participants.as_slice(),
    )?;
    Ok(go_on(txn, Phase::Aborting(awaited), outs, outcome))
}

// A node's journal has failed.
pub(crate) fn refuse(
    alloc: Global,
    spent: &mut Vec<Out>,
    gxid: Gxid,
    txn: &mut Txn,
    node: Node,
) -> Mem<Taken>
    ensures value { IfOk result (λ taken. IsMade (refuses gxid txn.old.participants node) txn.old txn.new taken) }
    ensures err { OnErr result (txn.new ≡ txn.old) }
{
    let aborting = abort_orders(alloc, spent, gxid, txn)?;
    Ok(refuse_by(txn, aborting, node))
}

// What an abort sends, and whose answers it awaits.
#[derive(Drop)]
pub struct Aborting {
    pub awaited: Seq<Node>,
    pub outs: Seq<Out>,
}

// What an abort of the transaction takes.
pub(crate) fn abort_orders(
    alloc: Global,
    spent: &mut Vec<Out>,
    gxid: Gxid,
    txn: &Txn,
) -> Mem<Aborting>
    ensures { IfOk result (λ aborting. aborting ≡ record { awaited = txn.now.participants; outs = messages (message.Abort gxid) txn.now.participants }) }
{
    let (awaited, outs) = told(
        alloc,
        spent,
        gxid,
        Order::Abort,
        txn.participants.as_slice(),
    )?;
    Ok(Aborting { awaited, outs })
}

// The transaction aborts, since the journal of this node has failed.
pub(crate) fn refuse_by(txn: &mut Txn, aborting: Aborting, node: Node) -> Taken
    ensures { IsMade (goes_to (phase.Aborting aborting.awaited) aborting.outs (outcome.Refused node)) txn.old txn.new result }
{
    let Aborting { awaited, outs } = aborting;
    go_on(txn, Phase::Aborting(awaited), outs, Outcome::Refused(node))
}

// Abort.
pub(crate) fn abort(alloc: Global, spent: &mut Vec<Out>, gxid: Gxid, txn: &mut Txn) -> Mem<Taken>
    ensures value { IfOk result (λ taken. IsMade (aborts gxid txn.old.participants) txn.old txn.new taken) }
    ensures err { OnErr result (txn.new ≡ txn.old) }
{
    if txn.participants.is_empty() {
        Ok(Taken::leaves(alloc, Outcome::Ended))
    } else {
        tell_abort(alloc, spent, gxid, txn, Outcome::Pending)
    }
}

// Commit, with these writers.
pub(crate) fn commit(
    alloc: Global,
    spent: &mut Vec<Out>,
    gxid: Gxid,
    writers: &[Node],
    txn: &mut Txn,
) -> Mem<Taken>
    ensures value { IfOk result (λ taken. IsMade (commits gxid writers.now txn.old) txn.old txn.new taken) }
    ensures err { OnErr result (txn.new ≡ txn.old) }
{
    match writers {
        [] => end_committed(alloc, spent, gxid, txn),
        [writer] => tell_commit(alloc, spent, gxid, txn, *writer),
        [_, _, ..] => tell_prepare(alloc, spent, gxid, txn, writers),
    }
}

fn tell_commit(
    alloc: Global,
    spent: &mut Vec<Out>,
    gxid: Gxid,
    txn: &mut Txn,
    writer: Node,
) -> Mem<Taken>
    ensures value { IfOk result (λ taken. IsMade (goes_to (phase.CommittingOne writer) (messages (message.Commit gxid) (writer ∷ [])) outcome.Pending) txn.old txn.new taken) }
    ensures err { OnErr result (txn.new ≡ txn.old) }
{
    let outs = Order::Commit.to_each(alloc, spent, gxid, &[writer])?;
    Ok(go_on(txn, Phase::CommittingOne(writer), outs, Outcome::Pending))
}

fn tell_prepare(
    alloc: Global,
    spent: &mut Vec<Out>,
    gxid: Gxid,
    txn: &mut Txn,
    writers: &[Node],
) -> Mem<Taken>
    ensures value { IfOk result (λ taken. IsMade (goes_to (phase.Preparing writers.now writers.now) (messages (message.Prepare gxid) writers.now) outcome.Pending) txn.old txn.new taken) }
    ensures err { OnErr result (txn.new ≡ txn.old) }
{
    let (phase, outs) = prepared(alloc, spent, gxid, writers)?;
    Ok(go_on(txn, phase, outs, Outcome::Pending))
}

// The phase in which these writers are asked to prepare, and what is to be sent for it.
fn prepared(
    alloc: Global,
    spent: &mut Vec<Out>,
    gxid: Gxid,
    writers: &[Node],
) -> Mem<(Phase, Seq<Out>)>
    ensures { IfOk result (λ prepared. (prepared.0 ≡ phase.Preparing writers.now writers.now) × (prepared.1 ≡ messages (message.Prepare gxid) writers.now)) }
{
    let (awaited, outs) = told(alloc, spent, gxid, Order::Prepare, writers)?;
    match copies(alloc, writers) {
        Ok(copied) => {
            let writers = Seq::from_vec(copied);
            Ok((Phase::Preparing { writers, awaited }, outs))
        }
        Err(fault) => {
            drop((awaited, outs));
            Err(fault)
        }
    }
}
