//! The grammar of lines: its rules, the laws of their readers, and the reader of expressions.
#![tactic(auto)]

pub mod class;
pub mod expr;
pub mod fault;
pub mod part;
pub mod rest;
pub mod signs;
pub mod syn;
pub mod whole;

pub use class::{Picked, TokenClass, read_name, read_one};
pub use expr::expr as read_first_expr;
pub use fault::{Fault, Limits, LineLimit, ReadError};
pub use part::{Part, read_list};
pub use signs::{begins_with_sign, begins_with_word, is_sign, is_word, read_sign, read_word};
pub use syn::{Op, Syn};
pub use whole::read_expr;
