//! A log of verdicts on a disk: one verdict a transaction, kept whatever a stop of the coordinator leaves.
#![tactic(auto)]

pub mod decide_fault;
pub mod decider;
pub mod decision;
pub mod disk;
pub mod disk_mem;
pub mod law;
pub mod open;
mod slot;
mod writing;

pub use decide_fault::DecideFault;
pub use decider::Decider;
pub use decision::Decision;
pub use disk::Disk;
pub use disk_mem::DiskMem;
pub use law::verdict_log;
pub use open::open_log;
