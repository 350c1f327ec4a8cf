ghost use Rattle.std.specs.Prelude.{◌≡◌, [], true, false};
ghost use Rattle.gx_dtx.specs.declared.outcome.Outcome.TheVariants as outcome;

use crate::outcome::{DtxOut, Outcome};
use gx_ids::Seq;
use gx_msg::Out;
use std::alloc::Global;

/// What a call has made of a transaction: whether it leaves the table, and what the call has come to.
#[derive(Drop)]
pub struct Taken {
    pub leaves: bool,
    pub out: DtxOut,
}

impl Taken {
    /// The transaction stays, and nothing is to be sent.
    pub fn silent(alloc: Global) -> Taken
        ensures { result ≡ record { leaves = false; out = record { outs = []; outcome = outcome.Pending } } }
    {
        Taken {
            leaves: false,
            out: DtxOut::new(alloc, Outcome::Pending),
        }
    }

    /// The transaction stays, and this is to be sent.
    pub fn sends(outs: Seq<Out>, outcome: Outcome) -> Taken
        ensures { result ≡ record { leaves = false; out = record { outs = outs; outcome = outcome } } }
    {
        Taken {
            leaves: false,
            out: DtxOut { outs, outcome },
        }
    }

    /// The transaction leaves the table.
    pub fn leaves(alloc: Global, outcome: Outcome) -> Taken
        ensures { result ≡ record { leaves = true; out = record { outs = []; outcome = outcome } } }
    {
        Taken {
            leaves: true,
            out: DtxOut::new(alloc, outcome),
        }
    }
}
