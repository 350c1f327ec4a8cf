//! What holds of every run of the machine: laws over the rules of both nodes. `order` has the order of marks, links and clocks,
//! `histories` what the coordinator alone decides of a history (where sessions stand, which events and marks are legal), and
//! `commit` the commit protocol.
#![tactic(auto)]

pub mod commit;
pub mod histories;
pub mod order;
