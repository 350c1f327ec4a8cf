//! Waits for locks: edges between transactions, the graphs of nodes, and what it means that transactions are stuck.
#![tactic(auto)]

pub mod claim;
pub mod edge;
pub mod graph;
pub mod laws;
pub mod object;
pub mod placed_edge;
pub mod verdict;

pub use claim::Claim;
pub use edge::Edge;
pub use graph::LocalGraph;
pub use object::Object;
pub use placed_edge::PlacedEdge;
pub use verdict::Verdict;
