//! Identifiers of the system, the project's list, box and shared value, and the one error of want of memory.
#![tactic(auto)]

pub mod boxed;
pub mod duplicate;
pub mod ids;
pub mod memory;
pub mod rid;
pub mod seq;
pub mod shared;
pub mod stamp;

pub use boxed::Boxed;
pub use duplicate::{Duplicate, copies};
pub use ids::{Cid, Gxid, Lxid, Node, SessionId, Table};
pub use memory::{Mem, OutOfMemory};
pub use rid::Rid;
pub use seq::Seq;
pub use shared::Shared;
pub use stamp::Stamp;
