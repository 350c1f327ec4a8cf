//! What a node does with a message, told of plain values: which messages fit, since a link tells nothing of what it carries;
//! where a transaction stands at a segment, and what the segment answers to the coordinator's orders to prepare, commit,
//! abort and forget it; and how a node takes locks and gives them back.
#![tactic(auto)]

mod aborting;
mod appending;
mod assigns;
mod committing;
mod kinds;
pub mod laws;
pub mod local;
pub mod locking;
pub mod orders;
pub mod parts;
mod probe;
mod query;
mod rows;
pub mod slices;
pub mod tables;
pub mod taken;
pub mod written;

pub use laws::orders_follow_the_rule;
pub use local::{Local, Phase, Suspended, Vote};
pub use locking::{
    ask_for, give_back, give_back_one, is_held, take_free, take_granted, take_ready, wait_for,
};
pub use orders::take_order;
pub use parts::fits_part;
pub use slices::{is_right_slice, reads_nothing};
pub use tables::{slice_lock, table_lock};
pub use taken::{Noted, Taken, Told};
pub use written::Written;
