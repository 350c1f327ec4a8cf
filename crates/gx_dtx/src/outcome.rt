ghost use Rattle.std.specs.Prelude.{◌≡◌, []};

use gx_ids::{Node, Seq};
use gx_msg::Out;
use std::alloc::Global;

/// What a call has come to.
#[derive(Clone, Copy)]
pub enum Outcome {
    /// None of the others.
    Pending,
    /// The decide item was appended: the transaction will commit.
    Decided,
    /// The transaction has ended by a commit.
    Committed,
    /// This node's journal failed, which aborts the transaction.
    Refused(Node),
    /// The transaction has ended by an abort.
    Ended,
}

/// What a call has come to, and what is to be sent for it, in order.
#[derive(Drop)]
pub struct DtxOut {
    pub outs: Seq<Out>,
    pub outcome: Outcome,
}

impl DtxOut {
    /// An outcome for which nothing is to be sent.
    pub fn new(alloc: Global, outcome: Outcome) -> DtxOut
        ensures { result ≡ record { outs = []; outcome = outcome } }
    {
        DtxOut {
            outs: Seq::new(alloc),
            outcome,
        }
    }
}
