ghost use Rattle.std.specs.Prelude.{◌≡◌};
ghost use Rattle.gx_node.specs.Outcomes.{answer_of};
ghost use Rattle.gx_node.specs.Phases.{local_of, reply_of};
ghost use Rattle.gx_rules.specs.Fits as rule;
ghost use Rattle.gx_rules.specs.Segments.{new_local};

use crate::taken::Told;
use gx_dsnap::Snapshot;
use gx_ids::{Boxed, Cid, Rid, Seq};
use gx_msg::Reply;
use gx_tree::{Level, Slice};

/// Where a transaction stands at a segment.
#[derive(Clone, Copy)]
pub enum Phase {
    /// It has written nothing here.
    Reading,
    /// It has written here.
    Writing,
    /// It has promised to commit.
    Prepared,
    /// It has committed here.
    Committed,
    /// Everybody has ended it; true where it had committed here.
    Forgotten(bool),
    Aborted,
}

/// What was answered to PREPARE or COMMIT, once and for all.
#[derive(Clone, Copy, PartialEq, Eq)]
pub enum Vote {
    Prepared,
    Committed,
    Jfault,
}

impl Vote {
    /// The answer.
    pub fn told(self) -> Told
        ensures { answer_of result ≡ reply_of self }
    {
        match self {
            Vote::Prepared => Told::Prepared,
            Vote::Committed => Told::Committed,
            Vote::Jfault => Told::Jfault,
        }
    }
}

/// A command's slice, which has its table's lock or waits for it, or waits at a row: how many rows it has written, and the rows
/// left behind that one. It has a snapshot unless it reads nothing.
#[derive(Drop)]
pub struct Suspended {
    pub cid: Cid,
    pub level: Level,
    pub snapshot: Option<Snapshot>,
    pub slice: Slice,
    pub count: u64,
    pub row: Option<Rid>,
    pub rows: Seq<Rid>,
}

/// A transaction at a segment: where it stands, its last command here, from 1, or 0 before the first, what was answered to that
/// command and to PREPARE or COMMIT, and the slice that waits. Few wait, so that one stands apart from a record that is moved often.
#[derive(Drop)]
pub struct Local {
    pub phase: Phase,
    pub last: u32,
    pub answer: Option<Reply>,
    pub vote: Option<Vote>,
    pub suspended: Option<Boxed<Suspended>>,
}

impl Local {
    /// A transaction of which nothing has come here.
    pub fn new() -> Local
        ensures { local_of result ≡ new_local }
    {
        Local {
            phase: Phase::Reading,
            last: 0,
            answer: None,
            vote: None,
            suspended: None,
        }
    }

    /// Whether a slice of it waits here.
    pub fn is_waiting(&self) -> bool
        ensures { result ≡ rule.is_waiting (local_of self.now) }
    {
        self.suspended.is_some()
    }
}
