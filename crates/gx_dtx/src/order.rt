ghost use Rattle.std.specs.Prelude.{◌≡◌, [], IfOk};
ghost use Rattle.gx_dtx.specs.Nodes.{to_each as messages};
ghost use Rattle.gx_dtx.specs.Orders.{message_of};

use gx_ids::{Gxid, Mem, Node, Seq};
use gx_msg::{Message, Out};
use std::alloc::Global;
use std::mem;

/// What the coordinator tells nodes about a transaction's end.
#[derive(Clone, Copy)]
pub enum Order {
    Prepare,
    Commit,
    CommitPrepared,
    Abort,
    Forget,
}

impl Order {
    /// The message.
    pub fn message(self, gxid: Gxid) -> Message
        ensures { result ≡ message_of self gxid }
    {
        match self {
            Order::Prepare => Message::Prepare(gxid),
            Order::Commit => Message::Commit(gxid),
            Order::CommitPrepared => Message::CommitPrepared(gxid),
            Order::Abort => Message::Abort(gxid),
            Order::Forget => Message::Forget(gxid),
        }
    }

    /// The message to a node.
    pub fn out(self, gxid: Gxid, node: Node) -> Out
        ensures { result ≡ record { node = node; message = message_of self gxid } }
    {
        Out {
            node,
            message: self.message(gxid),
        }
    }

    /// The message to each of the nodes, in order. The list takes the memory of a spent one.
    pub fn to_each(
        self,
        alloc: Global,
        spent: &mut Vec<Out>,
        gxid: Gxid,
        nodes: &[Node],
    ) -> Mem<Seq<Out>>
        ensures { IfOk result (λ outs. outs ≡ messages (message_of self gxid) nodes.now) }
    {
        let mut outs = emptied(alloc, spent);
        outs.reserve(nodes.len())?;
        for node in nodes {
            outs.push(self.out(gxid, *node))?;
        }
        Ok(Seq::from_vec(outs))
    }
}

// An empty list with the memory of a spent one.
fn emptied(alloc: Global, spent: &mut Vec<Out>) -> Vec<Out>
    ensures { result.items ≡ [] }
{
    let mut blank = mem::replace(spent, Vec::new(alloc));
    blank.clear();
    blank
}
