use crate::cond::Cond;
use gx_ids::{Duplicate, Mem, Seq, Table};
use std::alloc::Global;

/// What a SELECT gives for a row or a group: a column, or an aggregate over one or over the rows.
#[derive(Clone, Copy)]
pub enum Item {
    Col(u8),
    Count,
    Sum(u8),
    Min(u8),
    Max(u8),
}

/// A column of ORDER BY.
#[derive(Clone, Copy)]
pub struct Key {
    pub col: u8,
    pub desc: bool,
}

/// A SELECT. `grouped` is true where an aggregate or GROUP BY stands; `*` is kept as its columns.
#[derive(Drop)]
pub struct Query {
    pub table: Table,
    pub items: Seq<Item>,
    pub cond: Option<Cond>,
    pub group: Seq<u8>,
    pub grouped: bool,
    pub order: Seq<Key>,
    pub limit: Option<u64>,
}

impl Duplicate for Item {
    fn copy(&self, _alloc: Global) -> Mem<Item> {
        Ok(*self)
    }
}

impl Duplicate for Key {
    fn copy(&self, _alloc: Global) -> Mem<Key> {
        Ok(*self)
    }
}

impl Duplicate for Query {
    fn copy(&self, alloc: Global) -> Mem<Query> {
        Ok(Query {
            table: self.table,
            items: self.items.copy(alloc)?,
            cond: self.cond.copy(alloc)?,
            group: self.group.copy(alloc)?,
            grouped: self.grouped,
            order: self.order.copy(alloc)?,
            limit: self.limit,
        })
    }
}
