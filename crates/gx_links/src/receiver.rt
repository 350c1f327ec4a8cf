ghost use Rattle.std.specs.Prelude.{◌≡◌, ◌++◌, ◌∷◌, [], IfErr, IfOk, length};

use crate::line::{Line, Pass};
use crate::look::{EmptyLook, take_first};
use gx_msg::Envelope;
use std::alloc::Global;
use std::marker::Model;
use std::sync::{Arc, Wait};

/// The receiving end of a link. Contracts see it as its link and what was received on it.
#[derive(Drop)]
pub struct LinkIn {
    pub(crate) line: Arc<Line, Global>,
    pub(crate) pass: Pass,
    pub(crate) count: u64,
}

impl Model for LinkIn {
    ghost use Rattle.std.specs.Coded.{codes};
    ghost use Rattle.std.specs.Arc.{arc_value};
    ghost use Rattle.gx_tree.specs.contracts.expr.Expr as expr_type;
    ghost use Rattle.gx_tree.specs.contracts.cond.Cond as cond_type;
    ghost use Rattle.gx_dsnap.specs.contracts.snapshot.Snapshot as snapshot_type;
    ghost use Rattle.crossbeam_queue.specs.SegTies.{IsSegPassOf};
    ghost use Rattle.gx_links.specs.Ends.{InEnd, IsReceiver};
    ghost use Rattle.gx_links.specs.Views.{received_by};

    ghost Value = { InEnd };

    ghost coded = { Prim.hlevel (codes, expr_type.the_row.coded, cond_type.the_row.coded, snapshot_type.the_row.coded) };

    ghost view = { λ i. record { link = i.pass.web; received = received_by i.pass.me.view.client } };

    ghost invariant = { λ i. IsSegPassOf (arc_value i.line).queue i.pass × IsReceiver i.pass.me.view.client i.count };
}

impl LinkIn {
    /// How many envelopes were received.
    pub fn count(&self) -> u64
        ensures { result ≡ length self.now.received }
    {
        self.count
    }

    /// Receives the next envelope: the first of those sent that wasn't received. Where the link was empty at a moment of this call, it
    /// answers the look at that moment, which nothing else makes.
    pub fn receive<R: Wait>(&mut self, rt: &R) -> Result<Envelope, EmptyLook>
        ensures link { self.new.link ≡ self.old.link }
        ensures next { IfOk result (λ m. self.new.received ≡ self.old.received ++ m ∷ []) }
        ensures empty { IfErr result (λ look. (look ≡ length self.old.received) × (self.new.received ≡ self.old.received)) }
    {
        let LinkIn { line, pass, count } = self;
        match take_first(rt, &line.queue, pass, *count) {
            Ok(envelope) => {
                *count += 1;
                Ok(envelope)
            }
            Err(look) => Err(look),
        }
    }
}
