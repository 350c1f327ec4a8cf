//! The printed form of a statement, and that it reads back.
#![tactic(auto)]

pub mod conds;
pub mod exprs;
pub mod laws;
pub mod lines;
pub mod lists;
pub mod names;
pub mod queries;
pub mod stmts;

pub use lines::print_line;
pub use stmts::print_stmt;
