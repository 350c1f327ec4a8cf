ghost use Rattle.std.specs.Prelude.{◌≡◌};

use crate::phase::Phase;
use gx_ids::{Gxid, Node, Seq};
use std::alloc::Global;
use std::mem;

/// What the coordinator keeps of a transaction until every participant has forgotten it.
#[derive(Drop)]
pub struct Txn {
    pub phase: Phase,
    /// The segments that a command was sent to, rising.
    pub participants: Seq<Node>,
    /// The `xmin` of its live snapshot.
    pub live: Option<Gxid>,
}

impl Txn {
    ghost use Rattle.gx_dtx.specs.Table.{new_txn};
    ghost use Rattle.gx_dtx.specs.Rules.{moved};
    ghost use Rattle.gx_dtx.specs.Due.{struck, writers_in};
    ghost use Rattle.gx_dtx.specs.declared.phase.Phase.TheVariants.{CommittingTwo};

    /// A transaction that begins.
    pub fn new(alloc: Global) -> Txn
        ensures { result ≡ new_txn }
    {
        Txn {
            phase: Phase::Active,
            participants: Seq::new(alloc),
            live: None,
        }
    }

    /// Goes on to a phase.
    pub fn go_to(&mut self, phase: Phase)
        ensures { self.new ≡ moved phase self.old }
    {
        drop(mem::replace(&mut self.phase, phase));
        self.end_snapshot();
    }

    /// Waits for other nodes than this one.
    pub fn wait_without(&mut self, alloc: Global, node: Node)
        ensures { self.new ≡ moved (struck node self.old.phase) self.old }
    {
        self.phase.strike(alloc, node);
        self.end_snapshot();
    }

    /// Tells the writers to commit, who are all prepared.
    pub fn commit_prepared(&mut self, alloc: Global)
        ensures { self.new ≡ moved (CommittingTwo (writers_in self.old.phase)) self.old }
    {
        let preparing = mem::replace(&mut self.phase, Phase::Active);
        self.go_to(Phase::CommittingTwo(preparing.into_writers(alloc)));
    }

    // A snapshot lives until the commit or the abort at the latest.
    fn end_snapshot(&mut self)
        ensures { self.new ≡ moved self.old.phase self.old }
    {
        if matches!(self.phase, Phase::Ended(_) | Phase::Aborting(_)) {
            self.live = None;
        }
    }
}
