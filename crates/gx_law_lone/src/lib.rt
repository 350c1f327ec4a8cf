//! Where a round of the detector is all that was enabled, it finds victims; and where nothing is, there is no detector: what of it is proved.
#![tactic(auto)]

pub mod frame;
pub mod lone;
pub mod rows;
pub mod stuck;
pub mod victims;
