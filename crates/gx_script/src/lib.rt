//! What is to be run: tables, sessions, their lines, and the faults of links; and what a session's lines do outside a block,
//! in one, and in a failed one.
#![tactic(auto)]

ghost use Rattle.gx_script.specs.Hashed.{fault_writes};

pub mod group;
pub mod line_step;
pub mod restart;
pub mod state;

pub use group::SlotGroup;
use gx_ids::{Node, Seq, SessionId};
use gx_tree::{Schema, Stmt, Txt};
pub use line_step::{LineStep, Plain};
pub use restart::SegmentRestart;
pub use state::SessionState;
use std::hash::{Hash, Hasher};

/// A line of a session, with its number within the session, from 1.
#[derive(Drop)]
pub struct Line {
    pub session: SessionId,
    pub number: u32,
    pub stmt: Stmt,
}

/// A message that a link loses, or delivers twice where `repeat` holds. The link is the one from the coordinator to the
/// segment, or the one back; messages are numbered from 1 in the order of sending.
#[derive(Clone, Copy, PartialEq, Eq)]
pub struct LinkFault {
    pub to_segment: bool,
    pub segment: Node,
    pub number: u64,
    pub repeat: bool,
}

impl Hash for LinkFault {
    ghost use Rattle.std.proofs.Common.{rules};
    ghost use Rattle.std.specs.Cmp.Rules.{hashing};

    ghost hash_input = { fault_writes };

    ghost respects_eq = { Prim.search (hashing, rules) };

    fn hash<H: Hasher>(&self, state: &mut H) {
        self.to_segment.hash(state);
        state.write_u8(self.segment.0);
        self.number.hash(state);
        self.repeat.hash(state);
    }
}

/// A script. Tables and sessions are named elsewhere by their places here, and the lines stand in the order of the file.
#[derive(Drop)]
pub struct Script {
    pub segments: u8,
    pub detector: bool,
    pub tables: Seq<Schema>,
    pub sessions: Seq<Txt>,
    pub lines: Seq<Line>,
    pub faults: Seq<LinkFault>,
    pub groups: Seq<SlotGroup>,
    pub restarts: Seq<SegmentRestart>,
}
