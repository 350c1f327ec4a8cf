ghost use Rattle.std.specs.Prelude.{◌≡◌};

use gx_ids::Node;
use std::marker::Model;

/// What a segment passes at the start of each slice of a statement, inside its own event.
pub trait Gate {
    /// Returns when the slice at this node may go on.
    fn enter(&self, node: Node);
}

/// A gate that lets everything pass at once.
#[derive(Clone, Copy)]
pub struct PassGate;

impl Gate for PassGate {
    fn enter(&self, _node: Node) {}
}

/// That one slice at a node has entered the gate, seen as the node. Only `pass` makes it, and the slice takes it.
#[derive(Drop)]
pub struct Passed {
    node: Node,
}

impl Model for Passed {
    ghost use Rattle.gx_ids.specs.declared.ids.Node.{Node};

    ghost Value = { Node };

    ghost view = { λ a. a.node };
}

impl Passed {
    /// The node of the slice.
    pub fn node(&self) -> Node
        ensures { result ≡ self.now }
    {
        self.node
    }
}

/// Enters the gate for one slice at this node.
pub fn pass<G: Gate>(gate: &G, node: Node) -> Passed
    ensures { result ≡ node }
{
    gate.enter(node);
    Passed { node }
}
