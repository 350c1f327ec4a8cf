//! The lines of a script as they are written, before names and kinds are looked at, and their readers.
#![tactic(auto)]

pub mod classes;
pub mod heads;
mod joining;
pub mod lines;
pub mod query;
pub mod stmts;
pub mod syn;

pub use classes::{Agg, Direction, Fate, KindSyn, Segments, Size, Strength, Switch, Way};
pub use lines::{read_head_line, read_segments_line, read_session_line};
pub use syn::{
    AssignSyn, ColumnSyn, DistSyn, GroupSyn, ItemSyn, ItemsSyn, KeySyn, LineSyn, LinkSyn,
    SelectSyn, StmtSyn, TableSyn, TupleSyn,
};
