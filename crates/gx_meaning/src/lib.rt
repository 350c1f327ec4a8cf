//! What expressions, places, plans and queries mean: the definitions that code, rules and laws cite, and the types that
//! they speak of.
#![tactic(auto)]

mod fault;
mod parts;
mod piece;
mod sort_key;
mod target;

pub use fault::ArithFault;
pub use parts::rows_of;
pub use piece::Piece;
pub use sort_key::SortKey;
pub use target::Target;
