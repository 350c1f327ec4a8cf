//! The rules of both nodes, for each event: what it makes of a node's data, which marks and messages it has, and which
//! item goes to the journal. And the machine that the nodes make together over every message ever sent.
#![tactic(auto)]

pub mod pieces;
pub mod rows;
pub mod views;

pub use views::{kept_rows_are_the_last, rows_are_their_images, shown_rows_are_the_last};
