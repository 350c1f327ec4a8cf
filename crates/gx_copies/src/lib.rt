//! Copies of marks.
#![tactic(auto)]

mod probe;

ghost use Rattle.std.specs.Prelude.{◌≡◌, IfOk, OnOk, ◌++◌, true};
ghost use Rattle.gx_store.specs.declared.mark.Mark.TheVariants.{Recheck};
ghost use Rattle.gx_copies.specs.Copies.{is_of_claim, is_of_message, is_of_node, is_of_row, is_of_transaction};

use gx_ids::{Duplicate, Mem, Shared};
use gx_store::{Mark, StmtAnswer};
use gx_waits::{LocalGraph, Verdict};
use std::alloc::Global;

fn answer_copy(alloc: Global, answer: &StmtAnswer) -> Mem<StmtAnswer>
    ensures { IfOk result (λ copy. copy ≡ answer.now) }
{
    match answer {
        StmtAnswer::Begin => Ok(StmtAnswer::Begin),
        StmtAnswer::Commit => Ok(StmtAnswer::Commit),
        StmtAnswer::Rollback => Ok(StmtAnswer::Rollback),
        StmtAnswer::Locked => Ok(StmtAnswer::Locked),
        StmtAnswer::Inserted(count) => Ok(StmtAnswer::Inserted(*count)),
        StmtAnswer::Updated(count) => Ok(StmtAnswer::Updated(*count)),
        StmtAnswer::Deleted(count) => Ok(StmtAnswer::Deleted(*count)),
        StmtAnswer::Rows(rows) => Ok(StmtAnswer::Rows(rows.copy(alloc)?)),
        StmtAnswer::Refused(reason) => Ok(StmtAnswer::Refused(*reason)),
    }
}

fn recheck_copy(alloc: Global, round: u64, own: &Shared<LocalGraph>, verdict: &Verdict) -> Mem<Mark>
    ensures { IfOk result (λ copy. copy ≡ Recheck round own.now verdict.now) }
{
    let own = own.copy(alloc)?;
    Ok(Mark::Recheck {
        round,
        own,
        verdict: verdict.copy(alloc)?,
    })
}

fn transaction_copy(alloc: Global, mark: &Mark) -> Mem<Mark>
    requires { is_of_transaction mark.now ≡ true }
    ensures { IfOk result (λ copy. copy ≡ mark.now) }
{
    match mark {
        Mark::Start { gxid, session } => Ok(Mark::Start {
            gxid: *gxid,
            session: *session,
        }),
        Mark::Snap {
            gxid,
            cid,
            snapshot,
        } => Ok(Mark::Snap {
            gxid: *gxid,
            cid: *cid,
            snapshot: snapshot.copy(alloc)?,
        }),
        Mark::Skip { gxid, cid, rid } => Ok(Mark::Skip {
            gxid: *gxid,
            cid: *cid,
            rid: *rid,
        }),
        Mark::Commit { gxid } => Ok(Mark::Commit { gxid: *gxid }),
        Mark::Abort { gxid } => Ok(Mark::Abort { gxid: *gxid }),
        Mark::Answer {
            session,
            number,
            answer,
        } => Ok(Mark::Answer {
            session: *session,
            number: *number,
            answer: answer_copy(alloc, answer)?,
        }),
        _ => unreachable!(),
    }
}

fn row_copy(alloc: Global, mark: &Mark) -> Mem<Mark>
    requires { is_of_row mark.now ≡ true }
    ensures { IfOk result (λ copy. copy ≡ mark.now) }
{
    match mark {
        Mark::Write {
            gxid,
            cid,
            node,
            table,
            rid,
            image,
        } => Ok(Mark::Write {
            gxid: *gxid,
            cid: *cid,
            node: *node,
            table: *table,
            rid: *rid,
            image: image.copy(alloc)?,
        }),
        Mark::Fault {
            gxid,
            cid,
            rid,
            image,
        } => Ok(Mark::Fault {
            gxid: *gxid,
            cid: *cid,
            rid: *rid,
            image: image.copy(alloc)?,
        }),
        _ => unreachable!(),
    }
}

fn claim_copy(mark: &Mark) -> Mark
    requires { is_of_claim mark.now ≡ true }
    ensures { result ≡ mark.now }
{
    match mark {
        Mark::Hold {
            node,
            gxid,
            object,
            mode,
        } => Mark::Hold {
            node: *node,
            gxid: *gxid,
            object: *object,
            mode: *mode,
        },
        Mark::Wait {
            node,
            gxid,
            object,
            mode,
        } => Mark::Wait {
            node: *node,
            gxid: *gxid,
            object: *object,
            mode: *mode,
        },
        _ => unreachable!(),
    }
}

fn node_copy(mark: &Mark) -> Mark
    requires { is_of_node mark.now ≡ true }
    ensures { result ≡ mark.now }
{
    match mark {
        Mark::Release {
            node,
            gxid,
            object,
            mode,
        } => Mark::Release {
            node: *node,
            gxid: *gxid,
            object: *object,
            mode: *mode,
        },
        Mark::Prepared { node, gxid } => Mark::Prepared {
            node: *node,
            gxid: *gxid,
        },
        Mark::LocalCommit { node, gxid } => Mark::LocalCommit {
            node: *node,
            gxid: *gxid,
        },
        Mark::Decided { gxid } => Mark::Decided { gxid: *gxid },
        Mark::JournalFailed { node, gxid } => Mark::JournalFailed {
            node: *node,
            gxid: *gxid,
        },
        Mark::Restart { node } => Mark::Restart { node: *node },
        _ => unreachable!(),
    }
}

fn message_copy(alloc: Global, mark: &Mark) -> Mem<Mark>
    requires { is_of_message mark.now ≡ true }
    ensures { IfOk result (λ copy. copy ≡ mark.now) }
{
    match mark {
        Mark::Sent {
            to,
            number,
            message,
        } => Ok(Mark::Sent {
            to: *to,
            number: *number,
            message: message.copy(alloc)?,
        }),
        Mark::Report { node, round, graph } => Ok(Mark::Report {
            node: *node,
            round: *round,
            graph: graph.copy(alloc)?,
        }),
        Mark::Recheck {
            round,
            own,
            verdict,
        } => recheck_copy(alloc, *round, own, verdict),
        _ => unreachable!(),
    }
}

/// An equal mark, with values of its own.
pub fn mark_copy(alloc: Global, mark: &Mark) -> Mem<Mark>
    ensures { IfOk result (λ copy. copy ≡ mark.now) }
{
    match mark {
        Mark::Start { .. }
        | Mark::Snap { .. }
        | Mark::Skip { .. }
        | Mark::Commit { .. }
        | Mark::Abort { .. }
        | Mark::Answer { .. } => transaction_copy(alloc, mark),
        Mark::Write { .. } | Mark::Fault { .. } => row_copy(alloc, mark),
        Mark::Hold { .. } | Mark::Wait { .. } => Ok(claim_copy(mark)),
        Mark::Release { .. }
        | Mark::Prepared { .. }
        | Mark::LocalCommit { .. }
        | Mark::Decided { .. }
        | Mark::JournalFailed { .. }
        | Mark::Restart { .. } => Ok(node_copy(mark)),
        Mark::Sent { .. } | Mark::Report { .. } | Mark::Recheck { .. } => message_copy(alloc, mark),
    }
}

/// Adds copies of marks behind others.
pub fn push_marks(alloc: Global, all: &mut Vec<Mark>, marks: &[Mark]) -> Mem<()>
    ensures { OnOk result (all.new.items ≡ all.old.items ++ marks.now) }
{
    for mark in marks {
        all.push(mark_copy(alloc, mark)?)?;
    }
    Ok(())
}
