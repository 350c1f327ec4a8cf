// Answers of participants.
ghost use Rattle.std.specs.Prelude.{◌≡◌, Bool, List, true, false, IfOk, OnErr, if◌then◌else◌};
ghost use Rattle.gx_ids.specs.declared.ids.Gxid.{Gxid as Id};
ghost use Rattle.gx_ids.specs.declared.ids.Node.{Node as Place};
ghost use Rattle.gx_dtx.specs.declared.due.Due.TheVariants as dues;
ghost use Rattle.gx_outside.specs.Shelves.{HasKept, IsAppended};
ghost use Rattle.gx_msg.specs.ItemBytes.{bytes_of_item};
ghost use Rattle.gx_msg.specs.declared.item.JournalItem.TheVariants as item;
ghost use Rattle.gx_msg.specs.declared.message.Message.TheVariants as message;
ghost use Rattle.gx_dtx.specs.Nodes.{to_each as messages};
ghost use Rattle.gx_dtx.specs.Rules.{decides, decides_in, is_refused};
ghost use Rattle.gx_dtx.specs.Deciding.{HasDecided};
ghost use Rattle.gx_dtx.specs.Due.{IsMade, answered, change_due, is_decision, once_all as due_once_all, writers_in};

use crate::changes::{Aborting, abort_orders, end_committed, refuse, refuse_by};
use crate::due::Due;
use crate::nodes::{has, is_only};
use crate::order::Order;
use crate::outcome::Outcome;
use crate::phase::Phase;
use crate::taken::Taken;
use crate::txn::Txn;
use gx_ids::{Gxid, Mem, Node, OutOfMemory, Seq};
use gx_msg::{JournalItem, Out, Reply, item_bytes};
use gx_outside::{AppendFault, Journal};
use std::alloc::Global;

// What an answer of a node asks for.
fn due(phase: &Phase, node: Node, answer: &Reply) -> Due
    ensures value { (g : Id) (participants : List Place) (refused : Bool) → answered g participants node refused phase.now answer.now ≡ change_due result g participants node refused phase.now }
    ensures decision { decides_in phase.now node answer.now ≡ is_decision result }
{
    match (phase, answer) {
        (
            Phase::Preparing {
                writers: _,
                awaited,
            },
            Reply::Prepared,
        ) => once_all(node, awaited, Due::Decision),
        (
            Phase::Preparing {
                writers: _,
                awaited,
            },
            Reply::Jfault,
        ) => abort_if(has(node, awaited.as_slice())),
        (Phase::CommittingOne(writer), Reply::Committed) => commit_if(*writer == node),
        (Phase::CommittingOne(writer), Reply::Jfault) => abort_if(*writer == node),
        (Phase::CommittingTwo(awaited), Reply::Committed) => once_all(node, awaited, Due::Commit),
        (Phase::Ended(awaited), Reply::Forgotten) => once_all(node, awaited, Due::Forgotten),
        (Phase::Aborting(awaited), Reply::Aborted) => once_all(node, awaited, Due::Aborted),
        _ => Due::Nothing,
    }
}

// What is due with the last of the answers that are awaited.
fn once_all(node: Node, awaited: &Seq<Node>, last: Due) -> Due
    ensures { result ≡ due_once_all node awaited.now last }
{
    if !has(node, awaited.as_slice()) {
        Due::Nothing
    } else if is_only(node, awaited.as_slice()) {
        last
    } else {
        Due::Wait
    }
}

fn abort_if(awaited: bool) -> Due
    ensures { result ≡ (if awaited then dues.Abort else dues.Nothing) }
{
    if awaited { Due::Abort } else { Due::Nothing }
}

fn commit_if(awaited: bool) -> Due
    ensures { result ≡ (if awaited then dues.Commit else dues.Nothing) }
{
    if awaited { Due::Commit } else { Due::Nothing }
}

// What an answer makes of a transaction.
pub(crate) fn take_answer<J: Journal>(
    alloc: Global,
    spent: &mut Vec<Out>,
    gxid: Gxid,
    txn: &mut Txn,
    node: Node,
    answer: &Reply,
    journal: &mut J,
) -> Mem<Taken>
    ensures value { IfOk result (λ taken. IsMade (answered gxid txn.old.participants node (is_refused taken.out.outcome) txn.old.phase answer.now) txn.old txn.new taken) }
    ensures err { OnErr result (txn.new ≡ txn.old) }
    ensures decided { IfOk result (λ taken. HasDecided (J.shelf journal.old) (J.shelf journal.new) gxid (decides_in txn.old.phase node answer.now) taken.out.outcome) }
    ensures untouched { decides_in txn.old.phase node answer.now ≡ false → journal.new ≡ journal.old }
    ensures kept { OnErr result (HasKept (J.shelf journal.old) (J.shelf journal.new)) }
{
    let due = due(&txn.phase, node, answer);
    take_due(alloc, spent, gxid, txn, node, due, journal)
}

// What is due is made of a transaction.
fn take_due<J: Journal>(
    alloc: Global,
    spent: &mut Vec<Out>,
    gxid: Gxid,
    txn: &mut Txn,
    node: Node,
    due: Due,
    journal: &mut J,
) -> Mem<Taken>
    ensures value { IfOk result (λ taken. IsMade (change_due due gxid txn.old.participants node (is_refused taken.out.outcome) txn.old.phase) txn.old txn.new taken) }
    ensures err { OnErr result (txn.new ≡ txn.old) }
    ensures decided { IfOk result (λ taken. HasDecided (J.shelf journal.old) (J.shelf journal.new) gxid (is_decision due) taken.out.outcome) }
    ensures untouched { is_decision due ≡ false → journal.new ≡ journal.old }
    ensures kept { OnErr result (HasKept (J.shelf journal.old) (J.shelf journal.new)) }
{
    match due {
        Due::Nothing => Ok(Taken::silent(alloc)),
        Due::Wait => {
            txn.wait_without(alloc, node);
            Ok(Taken::silent(alloc))
        }
        Due::Decision => decide(alloc, spent, gxid, txn, journal),
        Due::Commit => end_committed(alloc, spent, gxid, txn),
        Due::Abort => refuse(alloc, spent, gxid, txn, node),
        Due::Forgotten => Ok(Taken::leaves(alloc, Outcome::Pending)),
        Due::Aborted => Ok(Taken::leaves(alloc, Outcome::Ended)),
    }
}

// All writers are prepared: appends the decide item. What is to be sent is made before, for either end of the append, so that no
// memory is needed once it was tried.
fn decide<J: Journal>(
    alloc: Global,
    spent: &mut Vec<Out>,
    gxid: Gxid,
    txn: &mut Txn,
    journal: &mut J,
) -> Mem<Taken>
    ensures value { IfOk result (λ taken. IsMade (decides gxid (writers_in txn.old.phase) txn.old.participants (is_refused taken.out.outcome)) txn.old txn.new taken) }
    ensures err { OnErr result (txn.new ≡ txn.old) }
    ensures decided { IfOk result (λ taken. HasDecided (J.shelf journal.old) (J.shelf journal.new) gxid true taken.out.outcome) }
    ensures kept { OnErr result (HasKept (J.shelf journal.old) (J.shelf journal.new)) }
{
    let outs = Order::CommitPrepared.to_each(alloc, spent, gxid, txn.phase.writers())?;
    match abort_orders(alloc, spent, gxid, txn) {
        Ok(aborting) => decide_by(alloc, gxid, txn, outs, aborting, journal),
        Err(fault) => {
            drop(outs);
            Err(fault)
        }
    }
}

// With what is to be sent where the journal takes the decision, and where it doesn't.
fn decide_by<J: Journal>(
    alloc: Global,
    gxid: Gxid,
    txn: &mut Txn,
    outs: Seq<Out>,
    aborting: Aborting,
    journal: &mut J,
) -> Mem<Taken>
    requires outs { outs ≡ messages (message.CommitPrepared gxid) (writers_in txn.old.phase) }
    requires aborting { aborting ≡ record { awaited = txn.old.participants; outs = messages (message.Abort gxid) txn.old.participants } }
    ensures value { IfOk result (λ taken. IsMade (decides gxid (writers_in txn.old.phase) txn.old.participants (is_refused taken.out.outcome)) txn.old txn.new taken) }
    ensures err { OnErr result (txn.new ≡ txn.old) }
    ensures decided { IfOk result (λ taken. HasDecided (J.shelf journal.old) (J.shelf journal.new) gxid true taken.out.outcome) }
    ensures kept { OnErr result (HasKept (J.shelf journal.old) (J.shelf journal.new)) }
{
    match append_decide(alloc, gxid, journal) {
        Ok(()) => {
            drop(aborting);
            txn.commit_prepared(alloc);
            Ok(Taken::sends(outs, Outcome::Decided))
        }
        Err(AppendFault::Failed) => {
            drop(outs);
            Ok(refuse_by(txn, aborting, Node(0)))
        }
        Err(AppendFault::OutOfMemory) => {
            drop((outs, aborting));
            Err(OutOfMemory)
        }
    }
}

fn append_decide<J: Journal>(alloc: Global, gxid: Gxid, journal: &mut J) -> Result<(), AppendFault>
    ensures { IsAppended (J.shelf journal.old) (J.shelf journal.new) (bytes_of_item (item.Decide gxid)) result }
{
    match decide_item(alloc, gxid) {
        Ok(item) => journal.append(item),
        Err(OutOfMemory) => Err(AppendFault::OutOfMemory),
    }
}

fn decide_item(alloc: Global, gxid: Gxid) -> Mem<Vec<u8>>
    ensures { IfOk result (λ bytes. bytes.items ≡ bytes_of_item (item.Decide gxid)) }
{
    item_bytes(alloc, &JournalItem::Decide(gxid))
}
