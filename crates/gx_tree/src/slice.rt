use crate::cond::Cond;
use crate::query::Query;
use crate::row::KeyedRow;
use crate::stmt::Assign;
use gx_ids::{Duplicate, Mem, Seq, Shared, Table};
use gx_modes::Mode;
use std::alloc::Global;

/// A statement's part for one segment. INSERT has the rows that are placed there.
#[derive(Drop)]
pub enum Slice {
    Select(Shared<Query>),
    Insert(Table, Shared<Seq<KeyedRow>>),
    Update(Table, Shared<Seq<Assign>>, Shared<Option<Cond>>),
    Delete(Table, Shared<Option<Cond>>),
    Lock(Table, Mode),
}

impl Duplicate for Slice {
    fn copy(&self, alloc: Global) -> Mem<Slice> {
        match self {
            Slice::Select(query) => Ok(Slice::Select(query.copy(alloc)?)),
            Slice::Insert(table, rows) => Ok(Slice::Insert(*table, rows.copy(alloc)?)),
            Slice::Update(table, assigns, cond) => {
                let assigns = assigns.copy(alloc)?;
                Ok(Slice::Update(*table, assigns, cond.copy(alloc)?))
            }
            Slice::Delete(table, cond) => Ok(Slice::Delete(*table, cond.copy(alloc)?)),
            Slice::Lock(table, mode) => Ok(Slice::Lock(*table, *mode)),
        }
    }
}
