// PREPARE, COMMIT and COMMIT PREPARED.
ghost use Rattle.std.specs.Prelude.{◌≡◌, true, false, Some, None, IfOk, OnErr};
ghost use Rattle.gx_outside.specs.Shelves.{HasKept};
ghost use Rattle.gx_node.specs.Changes.{Does, finishes_now, if_prepared, takes_on, unless_prepared, unless_waiting};
ghost use Rattle.gx_node.specs.Changes as change;
ghost use Rattle.gx_node.specs.Orders.{Took};
ghost use Rattle.gx_node.specs.Outcomes.{answer_of, mark_of};
ghost use Rattle.gx_node.specs.Phases.{local_of, phase_of, reply_of};
ghost use Rattle.gx_node.specs.Pledges.{item_of};

use crate::appending::{Heading, append, append_rows};
use crate::local::{Local, Phase, Vote};
use crate::taken::{Noted, Taken, Told, nothing, tell};
use crate::written::Written;
use gx_ids::{Gxid, Mem, Node};
use gx_msg::JournalItem;
use gx_outside::Journal;
use std::alloc::Global;

// What was answered to PREPARE or COMMIT, again.
fn tell_vote(node: Node, gxid: Gxid, local: &Local) -> Taken
    ensures does { Does (change.tells (local_of local.now) (local_of local.now).vote) (local_of local.now) result }
    ensures took { result.fails ≡ false }
{
    match local.vote {
        Some(vote) => tell(node, gxid, vote.told()),
        None => nothing(node, gxid),
    }
}

// The journal has failed before the transaction was promised or committed.
fn refuse(node: Node, gxid: Gxid, local: &mut Local) -> Taken
    ensures local { local.new ≡ record local.old { vote = Some Vote.Jfault } }
    ensures taken { result ≡ record { mark = Some (mark_of node gxid Noted.JournalFailed); reply = Some (answer_of Told.Jfault); fails = true; ends = false } }
{
    local.vote = Some(Vote::Jfault);
    Taken {
        node,
        gxid,
        noted: Some(Noted::JournalFailed),
        told: Some(Told::Jfault),
        fails: true,
        ends: false,
    }
}

// The journal has taken it.
fn agree(node: Node, gxid: Gxid, local: &mut Local, phase: Phase, vote: Vote, noted: Noted) -> Taken
    ensures local { local.new ≡ record local.old { phase = phase; vote = Some vote } }
    ensures taken { result ≡ record { mark = Some (mark_of node gxid noted); reply = Some (reply_of vote); fails = false; ends = false } }
{
    local.phase = phase;
    local.vote = Some(vote);
    Taken {
        node,
        gxid,
        noted: Some(noted),
        told: Some(vote.told()),
        fails: false,
        ends: false,
    }
}

// What a transaction takes on once the journal has its item.
#[derive(Clone, Copy)]
struct Pledge {
    heading: Heading,
    phase: Phase,
    vote: Vote,
    noted: Noted,
}

fn promise() -> Pledge
    ensures { result ≡ record { heading = Heading.Prepare; phase = Phase.Prepared; vote = Vote.Prepared; noted = Noted.Prepared } }
{
    Pledge {
        heading: Heading::Prepare,
        phase: Phase::Prepared,
        vote: Vote::Prepared,
        noted: Noted::Prepared,
    }
}

fn commitment() -> Pledge
    ensures { result ≡ record { heading = Heading.Commit; phase = Phase.Committed; vote = Vote.Committed; noted = Noted.LocalCommit } }
{
    Pledge {
        heading: Heading::Commit,
        phase: Phase::Committed,
        vote: Vote::Committed,
        noted: Noted::LocalCommit,
    }
}

fn take_on<J: Journal, W: Written>(
    alloc: Global,
    node: Node,
    gxid: Gxid,
    local: &mut Local,
    pledge: Pledge,
    kept: &W,
    journal: &mut J,
) -> Mem<Taken>
    ensures does { IfOk result (λ taken. Does (takes_on node gxid (item_of pledge.heading gxid (W.rows kept.now)) (phase_of pledge.phase) (reply_of pledge.vote)
        (mark_of node gxid pledge.noted) taken.fails (local_of local.old)) (local_of local.new) taken) }
    ensures took { IfOk result (λ taken. Took (J.shelf journal.old) (J.shelf journal.new) taken.fails (Some (item_of pledge.heading gxid (W.rows kept.now)))) }
    ensures err { OnErr result ((local.new ≡ local.old) × HasKept (J.shelf journal.old) (J.shelf journal.new)) }
{
    let Pledge {
        heading,
        phase,
        vote,
        noted,
    } = pledge;
    if append_rows(alloc, heading, gxid, kept, journal)? {
        Ok(refuse(node, gxid, local))
    } else {
        Ok(agree(node, gxid, local, phase, vote, noted))
    }
}

// PREPARE once the transaction has promised or committed here: who has committed in one phase never promised.
fn tell_promise(node: Node, gxid: Gxid, local: &Local) -> Taken
    ensures does { Does (if_prepared (local_of local.now)) (local_of local.now) result }
    ensures took { result.fails ≡ false }
{
    if local.vote == Some(Vote::Prepared) {
        tell_vote(node, gxid, local)
    } else {
        nothing(node, gxid)
    }
}

// PREPARE is answered once, and then always with what was answered then.
pub(crate) fn take_prepare<J: Journal, W: Written>(
    alloc: Global,
    node: Node,
    gxid: Gxid,
    local: &mut Local,
    kept: &W,
    journal: &mut J,
) -> Mem<Taken>
    ensures does { IfOk result (λ taken. Does (unless_waiting (local_of local.old)
        (change.prepares node gxid (W.rows kept.now) taken.fails (local_of local.old) (phase_of local.old.phase))) (local_of local.new) taken) }
    ensures took { IfOk result (λ taken. Took (J.shelf journal.old) (J.shelf journal.new) taken.fails (unless_waiting (local_of local.old)
        (change.prepares node gxid (W.rows kept.now) taken.fails (local_of local.old) (phase_of local.old.phase))).item) }
    ensures err { OnErr result ((local.new ≡ local.old) × HasKept (J.shelf journal.old) (J.shelf journal.new)) }
{
    if local.is_waiting() {
        return Ok(nothing(node, gxid));
    }
    match (local.phase, local.vote) {
        (Phase::Reading, None) | (Phase::Writing, None) => {
            take_on(alloc, node, gxid, local, promise(), kept, journal)
        }
        (Phase::Reading, Some(_)) | (Phase::Writing, Some(_)) => Ok(tell_vote(node, gxid, local)),
        (Phase::Aborted, _) => Ok(nothing(node, gxid)),
        _ => Ok(tell_promise(node, gxid, local)),
    }
}

// COMMIT is for who was never prepared here.
fn tell_commit(node: Node, gxid: Gxid, local: &Local) -> Taken
    ensures does { Does (unless_prepared (local_of local.now)) (local_of local.now) result }
    ensures took { result.fails ≡ false }
{
    if local.vote == Some(Vote::Prepared) {
        nothing(node, gxid)
    } else {
        tell_vote(node, gxid, local)
    }
}

pub(crate) fn take_commit<J: Journal, W: Written>(
    alloc: Global,
    node: Node,
    gxid: Gxid,
    local: &mut Local,
    kept: &W,
    journal: &mut J,
) -> Mem<Taken>
    ensures does { IfOk result (λ taken. Does (unless_waiting (local_of local.old)
        (change.commits node gxid (W.rows kept.now) taken.fails (local_of local.old) (phase_of local.old.phase))) (local_of local.new) taken) }
    ensures took { IfOk result (λ taken. Took (J.shelf journal.old) (J.shelf journal.new) taken.fails (unless_waiting (local_of local.old)
        (change.commits node gxid (W.rows kept.now) taken.fails (local_of local.old) (phase_of local.old.phase))).item) }
    ensures err { OnErr result ((local.new ≡ local.old) × HasKept (J.shelf journal.old) (J.shelf journal.new)) }
{
    if local.is_waiting() {
        return Ok(nothing(node, gxid));
    }
    match (local.phase, local.vote) {
        (Phase::Reading, None) | (Phase::Writing, None) => {
            take_on(alloc, node, gxid, local, commitment(), kept, journal)
        }
        (Phase::Reading, Some(_)) | (Phase::Writing, Some(_)) => Ok(tell_vote(node, gxid, local)),
        (Phase::Committed, _) | (Phase::Forgotten(_), _) => Ok(tell_commit(node, gxid, local)),
        _ => Ok(nothing(node, gxid)),
    }
}

// Commits as promised; where the journal fails, nothing changes and the order must come again.
fn finish<J: Journal>(
    alloc: Global,
    node: Node,
    gxid: Gxid,
    local: &mut Local,
    journal: &mut J,
) -> Mem<Taken>
    ensures does { IfOk result (λ taken. Does (finishes_now node gxid taken.fails (local_of local.old)) (local_of local.new) taken) }
    ensures took { IfOk result (λ taken. Took (J.shelf journal.old) (J.shelf journal.new) taken.fails (finishes_now node gxid taken.fails (local_of local.old)).item) }
    ensures err { OnErr result ((local.new ≡ local.old) × HasKept (J.shelf journal.old) (J.shelf journal.new)) }
{
    if append(alloc, JournalItem::Finish(gxid), journal)? {
        return Ok(Taken {
            node,
            gxid,
            noted: Some(Noted::JournalFailed),
            told: Some(Told::Again),
            fails: true,
            ends: false,
        });
    }
    local.phase = Phase::Committed;
    Ok(Taken {
        node,
        gxid,
        noted: Some(Noted::LocalCommit),
        told: Some(Told::Committed),
        fails: false,
        ends: false,
    })
}

pub(crate) fn take_commit_prepared<J: Journal>(
    alloc: Global,
    node: Node,
    gxid: Gxid,
    local: &mut Local,
    journal: &mut J,
) -> Mem<Taken>
    ensures does { IfOk result (λ taken. Does (change.finishes node gxid taken.fails (local_of local.old) (phase_of local.old.phase)) (local_of local.new) taken) }
    ensures took { IfOk result (λ taken. Took (J.shelf journal.old) (J.shelf journal.new) taken.fails (change.finishes node gxid taken.fails
        (local_of local.old) (phase_of local.old.phase)).item) }
    ensures err { OnErr result ((local.new ≡ local.old) × HasKept (J.shelf journal.old) (J.shelf journal.new)) }
{
    match local.phase {
        Phase::Prepared => finish(alloc, node, gxid, local, journal),
        Phase::Committed | Phase::Forgotten(true) => Ok(tell(node, gxid, Told::Committed)),
        _ => Ok(nothing(node, gxid)),
    }
}
