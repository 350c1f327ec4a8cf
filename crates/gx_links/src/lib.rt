//! Links between nodes: what one end receives is what the other sent, in order and once, whatever the order in which two threads
//! work.
#![tactic(auto)]

pub mod ends;
pub mod line;
pub mod look;
mod probe;
pub mod receiver;
pub mod record;
pub mod roles;
pub mod sender;

pub use ends::{close, link};
pub use look::EmptyLook;
pub use receiver::LinkIn;
pub use record::LinkRecord;
pub use sender::LinkOut;
