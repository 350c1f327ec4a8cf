ghost use Rattle.std.specs.Prelude.{◌≡◌, ◌≢◌, ◌<◌, ◌+◌, ◌^◌, OnOk};

use crate::counts::Counts;
use gx_ids::{Gxid, Mem, Node};
use std::alloc::Global;
use std::collections::BTreeMap;

/// A number for each transaction on each node.
#[derive(Drop)]
pub struct NodeCounts {
    alloc: Global,
    by_node: BTreeMap<Node, Counts>,
}

impl NodeCounts {
    ghost use Rattle.gx_ids.specs.declared.ids.Gxid.{Gxid};
    ghost use Rattle.gx_ids.specs.declared.ids.Node.{Node};
    ghost use Rattle.gx_detect.specs.Tally.{count_on};

    pub fn new(alloc: Global) -> NodeCounts
        ensures { (n : Node) → (g : Gxid) → count_on result n g ≡ 0 }
    {
        NodeCounts {
            alloc,
            by_node: BTreeMap::new(alloc),
        }
    }

    pub fn count(&self, node: Node, gxid: Gxid) -> usize
        ensures { result ≡ count_on self.now node gxid }
    {
        match self.by_node.get(&node) {
            Some(counts) => counts.count(gxid),
            None => 0,
        }
    }

    pub fn raise(&mut self, node: Node, gxid: Gxid) -> Mem<()>
        requires { count_on self.old node gxid + 1 < 2 ^ 64 }
        ensures there { OnOk result (count_on self.new node gxid ≡ count_on self.old node gxid + 1) }
        ensures others { OnOk result ((g : Gxid) → g.0 ≢ gxid.0 → count_on self.new node g ≡ count_on self.old node g) }
        ensures elsewhere { OnOk result ((n : Node) → n.0 ≢ node.0 → (g : Gxid) → count_on self.new n g ≡ count_on self.old n g) }
    {
        match self.by_node.get_mut(&node) {
            Some(counts) => counts.raise(gxid),
            None => {
                let mut counts = Counts::new(self.alloc);
                counts.raise(gxid)?;
                self.by_node.insert(node, counts)?;
                Ok(())
            }
        }
    }

    /// The answer is how many are left.
    pub fn lower(&mut self, node: Node, gxid: Gxid) -> usize
        requires { 0 < count_on self.old node gxid }
        ensures there { count_on self.new node gxid + 1 ≡ count_on self.old node gxid }
        ensures others { (g : Gxid) → g.0 ≢ gxid.0 → count_on self.new node g ≡ count_on self.old node g }
        ensures elsewhere { (n : Node) → n.0 ≢ node.0 → (g : Gxid) → count_on self.new n g ≡ count_on self.old n g }
        ensures left { result ≡ count_on self.new node gxid }
    {
        match self.by_node.get_mut(&node) {
            Some(counts) => counts.lower(gxid),
            None => unreachable!(),
        }
    }
}
