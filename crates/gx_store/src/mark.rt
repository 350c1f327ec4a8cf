use crate::answer::StmtAnswer;
use gx_dsnap::Snapshot;
use gx_ids::{Cid, Gxid, Node, Rid, SessionId, Shared, Table};
use gx_modes::Mode;
use gx_msg::Message;
use gx_tree::Row;
use gx_waits::{LocalGraph, Object, Verdict};

/// A thing that a step did. An image of `None` is a row that is gone.
#[derive(Drop)]
pub enum Mark {
    /// A session's transaction began.
    Start {
        gxid: Gxid,
        session: SessionId,
    },
    /// A command's snapshot was taken.
    Snap {
        gxid: Gxid,
        cid: Cid,
        snapshot: Snapshot,
    },
    /// A command gave a row a new image, at the segment where the row is placed.
    Write {
        gxid: Gxid,
        cid: Cid,
        node: Node,
        table: Table,
        rid: Rid,
        image: Option<Row>,
    },
    /// A command left a row that it had selected as it is, since another transaction has changed it.
    Skip {
        gxid: Gxid,
        cid: Cid,
        rid: Rid,
    },
    /// An evaluation on this image of a row faulted; on `None` that of an INSERT's constants.
    Fault {
        gxid: Gxid,
        cid: Cid,
        rid: Rid,
        image: Option<Row>,
    },
    /// A transaction committed, everywhere at once.
    Commit {
        gxid: Gxid,
    },
    /// A transaction aborted.
    Abort {
        gxid: Gxid,
    },
    /// A session's line was answered.
    Answer {
        session: SessionId,
        number: u32,
        answer: StmtAnswer,
    },
    /// A lock was granted at the node.
    Hold {
        node: Node,
        gxid: Gxid,
        object: Object,
        mode: Mode,
    },
    /// A lock has to be waited for at the node.
    Wait {
        node: Node,
        gxid: Gxid,
        object: Object,
        mode: Mode,
    },
    /// A lock was given back at the node, or a wait was dropped.
    Release {
        node: Node,
        gxid: Gxid,
        object: Object,
        mode: Mode,
    },
    /// A segment has promised to commit the transaction.
    Prepared {
        node: Node,
        gxid: Gxid,
    },
    /// A segment has committed the transaction.
    LocalCommit {
        node: Node,
        gxid: Gxid,
    },
    /// The coordinator has decided that a prepared transaction commits.
    Decided {
        gxid: Gxid,
    },
    /// The node's journal failed to take an item of the transaction.
    JournalFailed {
        node: Node,
        gxid: Gxid,
    },
    /// A segment has restarted: what it held in memory is lost.
    Restart {
        node: Node,
    },
    /// The node of this step sent a message, under the next number of its link.
    Sent {
        to: Node,
        number: u64,
        message: Message,
    },
    /// The node's wait graph was taken for a round.
    Report {
        node: Node,
        round: u64,
        graph: LocalGraph,
    },
    /// A round ended: the coordinator's own graph, and what is done about all graphs.
    Recheck {
        round: u64,
        own: Shared<LocalGraph>,
        verdict: Verdict,
    },
}
