//! What a segment finds and drops: an index, which rows were put under a value of their table's distribution column; and the sweep of a
//! row, of whose versions those go that nobody is shown any more.
#![tactic(auto)]

pub mod index;
mod rids;
pub mod sweeping;
pub mod table_key;

pub use index::KeyIndex;
pub use sweeping::sweep;
pub use table_key::TableKey;
