// The order to a node whose answer is awaited.
ghost use Rattle.std.specs.Prelude.{◌≡◌, None, Some, if◌then◌else◌};
ghost use Rattle.std.specs.Option.{option_copied};
ghost use Rattle.gx_dtx.specs.Rules.{order_found, order_in};
ghost use Rattle.gx_dtx.specs.Nodes.{has as is_one_of};

use crate::nodes::has;
use crate::order::Order;
use crate::phase::Phase;
use crate::txn::Txn;
use gx_ids::{Node, Seq};

pub(crate) fn order(txn: Option<&Txn>, node: Node) -> Option<Order>
    ensures { result ≡ order_found node (option_copied txn.entry) }
{
    match txn {
        Some(txn) => order_of(&txn.phase, node),
        None => None,
    }
}

fn order_of(phase: &Phase, node: Node) -> Option<Order>
    ensures { result ≡ order_in phase.now node }
{
    match phase {
        Phase::Active => None,
        Phase::Preparing {
            writers: _,
            awaited,
        } => among(node, awaited, Order::Prepare),
        Phase::CommittingOne(writer) if *writer == node => Some(Order::Commit),
        Phase::CommittingOne(_) => None,
        Phase::CommittingTwo(awaited) => among(node, awaited, Order::CommitPrepared),
        Phase::Ended(awaited) => among(node, awaited, Order::Forget),
        Phase::Aborting(awaited) => among(node, awaited, Order::Abort),
    }
}

// The order, for one of these nodes.
fn among(node: Node, awaited: &Seq<Node>, order: Order) -> Option<Order>
    ensures { result ≡ (if is_one_of node awaited.now then Some order else None) }
{
    if has(node, awaited.as_slice()) {
        Some(order)
    } else {
        None
    }
}
