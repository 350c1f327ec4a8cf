//! Generated work: a script of transfers between accounts, drawn from a number; whatever the number is, its bytes are read as the script of
//! that number.
#![tactic(auto)]

mod batches;
mod draws;
mod head;
pub mod laws;
mod transfer;
mod work;

pub use transfer::Transfer;
pub use work::generate;
