ghost use Rattle.std.specs.Prelude.{◌↔◌, ◌≡◌, ◌++◌, ◌∷◌, [], IsTrue, IfOk, IsOk, IsOkAnd, OnOk, OnErr, Any, Contains};

use crate::edge::Edge;
use gx_ids::{Duplicate, Gxid, Mem, Node, Seq};
use std::alloc::Global;

/// The edges at one node, in the order in which they were added.
#[derive(Drop)]
pub struct LocalGraph {
    pub node: Node,
    pub edges: Seq<Edge>,
}

impl LocalGraph {
    ghost use Rattle.gx_waits.specs.LocalGraph.{AddsOnce, without_edges_of};

    /// The graph of a node where nobody waits.
    pub fn new(alloc: Global, node: Node) -> Mem<LocalGraph>
        ensures { IsOkAnd result (λ graph. graph ≡ record { node = node; edges = [] }) }
    {
        Ok(LocalGraph {
            node,
            edges: Seq::new(alloc),
        })
    }

    /// Adds an edge at the end. An edge that is there already isn't added again.
    pub fn add(&mut self, edge: Edge) -> Mem<()>
        ensures node { self.new.node ≡ self.old.node }
        ensures ok { OnOk result (AddsOnce self.old.edges self.new.edges edge) }
        ensures present { Contains self.old.edges edge → IsOk result }
        ensures err { OnErr result (self.new ≡ self.old) }
    {
        if !self.edges.as_slice().contains(&edge) {
            self.edges.push(edge)?;
        }
        Ok(())
    }

    /// Whether the transaction waits at this node.
    pub fn has_out(&self, gxid: Gxid) -> bool
        ensures { IsTrue result ↔ Any (λ edge. edge.waiter ≡ gxid) self.now.edges }
    {
        self.edges.as_slice().iter().any(|edge| edge.waiter == gxid)
    }

    /// The graph without the edges that name the transaction.
    pub fn without(&self, alloc: Global, gxid: Gxid) -> Mem<LocalGraph>
        ensures { IfOk result (λ graph. graph ≡ without_edges_of gxid self.now) }
    {
        let mut kept = Vec::new(alloc);
        for edge in self.edges.as_slice() {
            if !edge.names(gxid) {
                kept.push(*edge)?;
            }
        }
        Ok(LocalGraph {
            node: self.node,
            edges: Seq::from_vec(kept),
        })
    }
}

impl Duplicate for LocalGraph {
    fn copy(&self, alloc: Global) -> Mem<LocalGraph> {
        Ok(LocalGraph {
            node: self.node,
            edges: self.edges.copy(alloc)?,
        })
    }
}
