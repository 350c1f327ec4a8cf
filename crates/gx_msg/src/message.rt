use crate::reply::Reply;
use gx_dsnap::Snapshot;
use gx_ids::{Cid, Duplicate, Gxid, Mem, Node, Shared};
use gx_tree::{Level, Slice};
use gx_waits::LocalGraph;
use std::alloc::Global;

/// What one node tells another. The coordinator sends the first seven, a segment the last three.
#[derive(Drop)]
pub enum Message {
    /// A command's part for a segment. Where there is a snapshot, the segment takes it for the block or the command.
    Exec {
        gxid: Gxid,
        cid: Cid,
        level: Level,
        snapshot: Shared<Option<Snapshot>>,
        horizon: Gxid,
        slice: Shared<Slice>,
    },
    /// Promise to commit.
    Prepare(Gxid),
    /// Commit at once, as the only writer.
    Commit(Gxid),
    /// Commit as promised.
    CommitPrepared(Gxid),
    Abort(Gxid),
    /// Everybody has ended the transaction.
    Forget(Gxid),
    /// Send the wait graph for this round of the detector.
    Collect(u64),
    Answer(Gxid, Reply),
    /// A segment's wait graph for a round.
    Graph(u64, LocalGraph),
    /// A segment has restarted, and only tells its incarnation.
    Up,
}

/// A message and the node that it goes to.
#[derive(Drop)]
pub struct Out {
    pub node: Node,
    pub message: Message,
}

/// A message on its link, with its number there, from 1, and the sender's clock. The incarnation is a segment's: that of the sender,
/// or, of a message to a segment, the one in which the segment has come to know the message's transaction.
#[derive(Drop)]
pub struct Envelope {
    pub number: u64,
    pub clock: u64,
    pub incarnation: u64,
    pub message: Message,
}

impl Duplicate for Message {
    fn copy(&self, alloc: Global) -> Mem<Message> {
        match self {
            Message::Exec {
                gxid,
                cid,
                level,
                snapshot,
                horizon,
                slice,
            } => {
                let snapshot = snapshot.copy(alloc)?;
                let slice = slice.copy(alloc)?;
                Ok(Message::Exec {
                    gxid: *gxid,
                    cid: *cid,
                    level: *level,
                    snapshot,
                    horizon: *horizon,
                    slice,
                })
            }
            Message::Prepare(gxid) => Ok(Message::Prepare(*gxid)),
            Message::Commit(gxid) => Ok(Message::Commit(*gxid)),
            Message::CommitPrepared(gxid) => Ok(Message::CommitPrepared(*gxid)),
            Message::Abort(gxid) => Ok(Message::Abort(*gxid)),
            Message::Forget(gxid) => Ok(Message::Forget(*gxid)),
            Message::Collect(round) => Ok(Message::Collect(*round)),
            Message::Answer(gxid, reply) => Ok(Message::Answer(*gxid, reply.copy(alloc)?)),
            Message::Graph(round, graph) => Ok(Message::Graph(*round, graph.copy(alloc)?)),
            Message::Up => Ok(Message::Up),
        }
    }
}

impl Duplicate for Out {
    fn copy(&self, alloc: Global) -> Mem<Out> {
        Ok(Out {
            node: self.node,
            message: self.message.copy(alloc)?,
        })
    }
}

impl Duplicate for Envelope {
    fn copy(&self, alloc: Global) -> Mem<Envelope> {
        Ok(Envelope {
            number: self.number,
            clock: self.clock,
            incarnation: self.incarnation,
            message: self.message.copy(alloc)?,
        })
    }
}
