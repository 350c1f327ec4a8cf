ghost use Rattle.std.specs.Prelude.{◌≡◌, ◌<◌, ◌^◌, ◌++◌, ◌∷◌, [], length, IfErr, OnOk};

use crate::line::{Line, Pass};
use crate::roles::Sends;
use gx_msg::Envelope;
use std::alloc::Global;
use std::marker::Model;
use std::sync::{Arc, Wait};

/// The sending end of a link. Contracts see it as its link and what was sent on it.
#[derive(Drop)]
pub struct LinkOut {
    pub(crate) line: Arc<Line, Global>,
    pub(crate) pass: Pass,
    pub(crate) count: u64,
}

impl Model for LinkOut {
    ghost use Rattle.std.specs.Coded.{codes};
    ghost use Rattle.std.specs.Arc.{arc_value};
    ghost use Rattle.gx_tree.specs.contracts.expr.Expr as expr_type;
    ghost use Rattle.gx_tree.specs.contracts.cond.Cond as cond_type;
    ghost use Rattle.gx_dsnap.specs.contracts.snapshot.Snapshot as snapshot_type;
    ghost use Rattle.crossbeam_queue.specs.SegTies.{IsSegPassOf};
    ghost use Rattle.gx_links.specs.Ends.{OutEnd, IsSender};
    ghost use Rattle.gx_links.specs.Views.{sent_by};

    ghost Value = { OutEnd };

    ghost coded = { Prim.hlevel (codes, expr_type.the_row.coded, cond_type.the_row.coded, snapshot_type.the_row.coded) };

    ghost view = { λ o. record { link = o.pass.web; sent = sent_by o.pass.me.view.client } };

    ghost invariant = { λ o. IsSegPassOf (arc_value o.line).queue o.pass × IsSender o.pass.me.view.client o.count };
}

impl LinkOut {
    /// How many envelopes were sent.
    pub fn count(&self) -> u64
        ensures { result ≡ length self.now.sent }
    {
        self.count
    }

    /// Sends an envelope. It comes back where there is no memory for it, and nothing was sent.
    pub fn send<R: Wait>(&mut self, rt: &R, m: Envelope) -> Result<(), Envelope>
        requires { length self.old.sent < 2 ^ 63 }
        ensures link { self.new.link ≡ self.old.link }
        ensures ok { OnOk result (self.new.sent ≡ self.old.sent ++ m ∷ []) }
        ensures err { IfErr result (λ back. (back ≡ m) × (self.new.sent ≡ self.old.sent)) }
    {
        let LinkOut { line, pass, count } = self;
        line.queue.push_as::<Sends, R>(rt, pass, m)?;
        *count += 1;
        Ok(())
    }
}
