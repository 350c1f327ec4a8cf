//! What commands answer in every run: a SELECT its query on the rows of its snapshot, all segments together, or the fault of
//! its condition on one of them; an UPDATE or DELETE how many rows it has written, with all that it selects processed, or its
//! fault, or a row that was overtaken. So every run is a legal history.
#![tactic(auto)]

pub mod laws;
