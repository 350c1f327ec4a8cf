//! Values, rows, schemas, expressions, statements and answers, in the shapes that all stages use.
#![tactic(auto)]

pub mod cell;
pub mod cond;
pub mod expr;
pub mod part;
pub mod query;
pub mod row;
pub mod schema;
pub mod slice;
pub mod stmt;
pub mod txt;
pub mod value;

pub use cell::{Cell, OutRow};
pub use cond::{CmpOp, Cond};
pub use expr::{ArithOp, Expr};
pub use part::{Group, Part};
pub use query::{Item, Key, Query};
pub use row::{KeyedRow, Row};
pub use schema::{Column, Dist, Kind, Schema};
pub use slice::Slice;
pub use stmt::{Assign, Level, Stmt};
pub use txt::Txt;
pub use value::Value;
