// What a command sends.
ghost use Rattle.std.specs.Prelude.{◌≡◌, IfOk, OnOk, OnErr};
ghost use Rattle.gx_dtx.specs.Table.{IsActive};
ghost use Rattle.gx_rules.specs.AtCoordinator.{enlisted_all, nodes_in, order_of, orders_of};

use crate::work::taken;
use gx_dsnap::Snapshot;
use gx_dtx::Dtx;
use gx_ids::{Cid, Duplicate, Gxid, Mem, Node, Seq, Shared};
use gx_meaning::Piece;
use gx_msg::{Message, Out};
use gx_tree::Level;
use std::alloc::Global;

// What each order of a command has besides its slice.
#[derive(Drop)]
pub struct Ordering {
    pub gxid: Gxid,
    pub cid: Cid,
    pub level: Level,
    pub snapshot: Shared<Option<Snapshot>>,
    pub horizon: Gxid,
}

// The EXEC of a piece.
fn order(alloc: Global, of: &Ordering, piece: Piece) -> Mem<Out>
    ensures { IfOk result (λ out. out ≡ order_of of.now.gxid of.now.cid of.now.level of.now.snapshot of.now.horizon piece) }
{
    let Piece { node, slice } = piece;
    let slice = Shared::new(alloc, slice)?;
    let snapshot = of.snapshot.copy(alloc)?;
    Ok(Out {
        node,
        message: Message::Exec {
            gxid: of.gxid,
            cid: of.cid,
            level: of.level,
            snapshot,
            horizon: of.horizon,
            slice,
        },
    })
}

// The EXECs of the pieces, in their order. They take the memory of a spare list, and the pieces' list is left empty, with its own.
pub(crate) fn orders(
    alloc: Global,
    spare: &mut Vec<Out>,
    of: &Ordering,
    pieces: &mut Vec<Piece>,
) -> Mem<Seq<Out>>
    ensures { IfOk result (λ outs. outs ≡ orders_of of.now.gxid of.now.cid of.now.level of.now.snapshot of.now.horizon pieces.old.items) }
{
    let mut outs = taken(alloc, spare);
    outs.reserve(pieces.len())?;
    pieces.reverse();
    while let Some(piece) = pieces.pop() {
        outs.push(order(alloc, of, piece)?)?;
    }
    Ok(Seq::from_vec(outs))
}

// The same messages once more, in the memory of a spare list.
pub(crate) fn copied(alloc: Global, spare: &mut Vec<Out>, orders: &[Out]) -> Mem<Seq<Out>>
    ensures { IfOk result (λ outs. outs ≡ orders.now) }
{
    let mut outs = taken(alloc, spare);
    outs.reserve(orders.len())?;
    for order in orders {
        outs.push(order.copy(alloc)?)?;
    }
    Ok(Seq::from_vec(outs))
}

// The nodes that they go to, in the memory of a spare list.
pub(crate) fn nodes(alloc: Global, spare: &mut Vec<Node>, pieces: &[Piece]) -> Mem<Seq<Node>>
    ensures { IfOk result (λ nodes. nodes ≡ nodes_in pieces.now) }
{
    let mut nodes = taken(alloc, spare);
    nodes.reserve(pieces.len())?;
    for piece in pieces {
        nodes.push(piece.node)?;
    }
    Ok(Seq::from_vec(nodes))
}

// These nodes become participants.
#[tactic(auto, using(crate::proofs::Enlisting::active_enlisted))]
pub(crate) fn enlist_all(dtx: &mut Dtx, gxid: Gxid, nodes: &[Node]) -> Mem<()>
    requires { IsActive dtx.old gxid }
    ensures { OnOk result (dtx.new ≡ enlisted_all dtx.old gxid nodes.now) }
{
    for node in nodes {
        dtx.enlist(gxid, *node)?;
    }
    Ok(())
}
