// What an order came to.
ghost use Rattle.std.specs.Prelude.{◌≡◌, false, None, Some};
ghost use Rattle.gx_node.specs.Outcomes.{answer_of, mark_of};

use gx_ids::{Gxid, Node};
use gx_msg::Reply;
use gx_store::Mark;
use std::marker::Model;

/// What a mark says of a transaction.
#[derive(Clone, Copy)]
pub enum Noted {
    Prepared,
    LocalCommit,
    JournalFailed,
}

/// What is answered to an order.
#[derive(Clone, Copy)]
pub enum Told {
    Prepared,
    Committed,
    Jfault,
    Again,
    Aborted,
    Forgotten,
}

/// What an order came to: its mark, its answer, whether the journal failed to take an item, and whether the transaction gives its
/// locks back, since it has ended here. The mark and the answer are made where they are asked for.
#[derive(Drop)]
pub struct Taken {
    pub(crate) node: Node,
    pub(crate) gxid: Gxid,
    pub(crate) noted: Option<Noted>,
    pub(crate) told: Option<Told>,
    pub(crate) fails: bool,
    pub(crate) ends: bool,
}

impl Model for Taken {
    ghost use Rattle.std.specs.Coded.{codes};
    ghost use Rattle.gx_dsnap.specs.contracts.snapshot.Snapshot as snapshot_type;
    ghost use Rattle.gx_tree.specs.contracts.cond.Cond as cond_type;
    ghost use Rattle.gx_tree.specs.contracts.expr.Expr as expr_type;
    ghost use Rattle.gx_node.specs.Outcomes.{Outcome, outcome_of};

    ghost Value = { Outcome };

    ghost coded = { Prim.hlevel (codes, expr_type.the_row.coded, cond_type.the_row.coded, snapshot_type.the_row.coded) };

    ghost view = { λ a. outcome_of a.node a.gxid a.noted a.told a.fails a.ends };
}

impl Taken {
    /// Its mark, if it has one.
    pub fn mark(&self) -> Option<Mark>
        ensures { result ≡ self.now.mark }
    {
        match self.noted {
            Some(noted) => Some(mark_of(self.node, self.gxid, noted)),
            None => None,
        }
    }

    /// Its answer, if it has one.
    pub fn reply(&self) -> Option<Reply>
        ensures { result ≡ self.now.reply }
    {
        match self.told {
            Some(told) => Some(reply_of(told)),
            None => None,
        }
    }

    /// Whether the journal failed to take its item.
    pub fn fails(&self) -> bool
        ensures { result ≡ self.now.fails }
    {
        self.fails
    }

    /// Whether the transaction gives its locks back.
    pub fn ends(&self) -> bool
        ensures { result ≡ self.now.ends }
    {
        self.ends
    }
}

fn mark_of(node: Node, gxid: Gxid, noted: Noted) -> Mark
    ensures { result ≡ mark_of node gxid noted }
{
    match noted {
        Noted::Prepared => Mark::Prepared { node, gxid },
        Noted::LocalCommit => Mark::LocalCommit { node, gxid },
        Noted::JournalFailed => Mark::JournalFailed { node, gxid },
    }
}

fn reply_of(told: Told) -> Reply
    ensures { result ≡ answer_of told }
{
    match told {
        Told::Prepared => Reply::Prepared,
        Told::Committed => Reply::Committed,
        Told::Jfault => Reply::Jfault,
        Told::Again => Reply::Again,
        Told::Aborted => Reply::Aborted,
        Told::Forgotten => Reply::Forgotten,
    }
}

// Nothing was done.
pub(crate) fn nothing(node: Node, gxid: Gxid) -> Taken
    ensures { result ≡ record { mark = None; reply = None; fails = false; ends = false } }
{
    Taken {
        node,
        gxid,
        noted: None,
        told: None,
        fails: false,
        ends: false,
    }
}

// An answer, and nothing else.
pub(crate) fn tell(node: Node, gxid: Gxid, told: Told) -> Taken
    ensures { result ≡ record { mark = None; reply = Some (answer_of told); fails = false; ends = false } }
{
    Taken {
        node,
        gxid,
        noted: None,
        told: Some(told),
        fails: false,
        ends: false,
    }
}
