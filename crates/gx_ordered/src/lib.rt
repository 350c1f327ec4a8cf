//! Whether marks stand at their nodes, messages are numbered and arrive after they were sent, and clocks rise: the definition of an ordered
//! run decided, in one walk over the run, which keeps of each node its clock and of each link when its messages were sent.
#![tactic(auto)]

mod events;
mod nodes;
pub mod progress;
mod steps;

pub use steps::are_ordered;
