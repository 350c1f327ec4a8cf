use gx_msg::Message;
use std::marker::Model;

/// A message as it stands in the run in which it was sent, with its number on its link, the clock of its step and its incarnation.
/// Contracts see the envelope.
#[derive(Drop)]
pub struct Letter<'a> {
    pub(crate) number: u64,
    pub(crate) clock: u64,
    pub(crate) incarnation: u64,
    pub(crate) message: &'a Message,
}

impl<'a> Model for Letter<'a> {
    ghost use Rattle.std.specs.Coded.{codes};
    ghost use Rattle.gx_tree.specs.contracts.expr.Expr as expr_type;
    ghost use Rattle.gx_tree.specs.contracts.cond.Cond as cond_type;
    ghost use Rattle.gx_dsnap.specs.contracts.snapshot.Snapshot as snapshot_type;
    ghost use Rattle.gx_msg.specs.declared.message.Envelope.{Envelope};

    ghost Value = { Envelope };

    ghost coded = { Prim.hlevel (codes, expr_type.the_row.coded, cond_type.the_row.coded, snapshot_type.the_row.coded) };

    ghost view = { λ l. record { number = l.number; clock = l.clock; incarnation = l.incarnation; message = l.message.now } };
}
