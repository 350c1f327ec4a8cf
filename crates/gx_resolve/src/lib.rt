//! From a statement or a table line as it is written to what it is over the tables, or what is wrong with its names and
//! kinds.
#![tactic(auto)]

pub mod columns;
pub mod expression;
pub mod fault;
pub mod laws;
mod naming;
pub mod node;
pub mod parts;
mod select;
mod statement;
mod table;
pub mod typed;

pub use columns::find_column;
pub use expression::type_expression;
pub use fault::{NameFault, ResolveError};
pub use parts::{Written, where_as};
pub use select::is_grouped;
pub use statement::{named_table, resolve_stmt};
pub use table::resolve_table;
pub use typed::Typed;
