//! What a query answers: a segment's part, rows or the aggregates of groups, and the answer from any parts that were sent for it,
//! exactly as the coordinator's rule puts them together.
#![tactic(auto)]

mod cells;
mod combined;
mod first;
mod groups;
mod key;
mod laws;
mod merged;
mod merging;
mod order;
mod output;
mod partial_answer;
mod tally;

pub use laws::{dealt_rows_are_divided, ordered_lists_are_sorted};
pub use merging::merge_parts;
pub use partial_answer::partial;
