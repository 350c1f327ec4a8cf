use crate::txt::Txt;
use gx_ids::{Duplicate, Mem, Seq};
use std::alloc::Global;

/// What a column holds: `bigint` or `text`.
#[derive(Clone, Copy)]
pub enum Kind {
    Int,
    Text,
}

#[derive(Drop)]
pub struct Column {
    pub name: Txt,
    pub kind: Kind,
}

/// How a table's rows are distributed among the segments: by the value of a column, whose place is given, or by the
/// row's identity.
#[derive(Clone, Copy)]
pub enum Dist {
    By(u8),
    Randomly,
}

/// A table, as its line of the script declares it.
#[derive(Drop)]
pub struct Schema {
    pub name: Txt,
    pub columns: Seq<Column>,
    pub dist: Dist,
}

impl Duplicate for Column {
    fn copy(&self, alloc: Global) -> Mem<Column> {
        Ok(Column {
            name: self.name.copy(alloc)?,
            kind: self.kind,
        })
    }
}

impl Duplicate for Schema {
    fn copy(&self, alloc: Global) -> Mem<Schema> {
        Ok(Schema {
            name: self.name.copy(alloc)?,
            columns: self.columns.copy(alloc)?,
            dist: self.dist,
        })
    }
}
