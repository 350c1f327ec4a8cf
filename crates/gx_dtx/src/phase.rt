ghost use Rattle.std.specs.Prelude.{◌≡◌};

use crate::nodes::take_out;
use crate::status::Status;
use gx_ids::{Node, Seq};
use std::alloc::Global;

/// Where a transaction stands, with those whose answers the coordinator awaits.
#[derive(Drop)]
pub enum Phase {
    /// Its commands run.
    Active,
    /// PREPARE went to each writer. These haven't answered.
    Preparing {
        writers: Seq<Node>,
        awaited: Seq<Node>,
    },
    /// COMMIT went to the only writer, which hasn't answered.
    CommittingOne(Node),
    /// It is decided that it commits, and COMMIT PREPARED went to each writer. These haven't answered.
    CommittingTwo(Seq<Node>),
    /// It has ended by a commit, and FORGET went to each participant. These haven't answered.
    Ended(Seq<Node>),
    /// It is aborted, and ABORT went to each participant. These haven't answered.
    Aborting(Seq<Node>),
}

impl Phase {
    ghost use Rattle.gx_dtx.specs.Table.{status_in, is_active as acts_in, is_running as runs_in};
    ghost use Rattle.gx_dtx.specs.Due.{struck, writers_in};

    /// The status, without those whose answers are awaited.
    pub fn status(&self) -> Status
        ensures { result ≡ status_in self.now }
    {
        match self {
            Phase::Active => Status::Active,
            Phase::Preparing { .. } => Status::Preparing,
            Phase::CommittingOne(_) | Phase::CommittingTwo(_) => Status::Committing,
            Phase::Ended(_) => Status::Ended,
            Phase::Aborting(_) => Status::Aborting,
        }
    }

    /// Whether the transaction hasn't ended.
    pub fn is_running(&self) -> bool
        ensures { result ≡ runs_in self.now }
    {
        !matches!(self, Phase::Ended(_))
    }

    /// Whether its commands run.
    pub fn is_active(&self) -> bool
        ensures { result ≡ acts_in self.now }
    {
        matches!(self, Phase::Active)
    }

    /// No answer of the node is awaited any more.
    pub fn strike(&mut self, alloc: Global, node: Node)
        ensures { self.new ≡ struck node self.old }
    {
        match self {
            Phase::Active | Phase::CommittingOne(_) => {}
            Phase::Preparing {
                writers: _,
                awaited,
            } => take_out(alloc, node, awaited),
            Phase::CommittingTwo(awaited) => take_out(alloc, node, awaited),
            Phase::Ended(awaited) => take_out(alloc, node, awaited),
            Phase::Aborting(awaited) => take_out(alloc, node, awaited),
        }
    }

    /// The writers that are asked to prepare.
    pub fn writers(&self) -> &[Node]
        ensures { result.now ≡ writers_in self.now }
    {
        match self {
            Phase::Preparing {
                writers,
                awaited: _,
            } => writers.as_slice(),
            _ => &[],
        }
    }

    /// The writers that were asked to prepare.
    pub fn into_writers(self, alloc: Global) -> Seq<Node>
        ensures { result ≡ writers_in self }
    {
        match self {
            Phase::Preparing { writers, awaited } => {
                drop(awaited);
                writers
            }
            other => {
                drop(other);
                Seq::new(alloc)
            }
        }
    }
}
