use crate::cell::Cell;
use crate::row::{KeyedRow, Row};
use gx_ids::{Duplicate, Mem, Seq};
use std::alloc::Global;

/// The rows of one value of the GROUP BY columns, as their aggregates at one segment.
#[derive(Drop)]
pub struct Group {
    pub key: Row,
    pub cells: Seq<Cell>,
}

/// A segment's part of an answer: rows, or groups where the query groups.
#[derive(Drop)]
pub enum Part {
    Rows(Seq<KeyedRow>),
    Groups(Seq<Group>),
}

impl Duplicate for Group {
    fn copy(&self, alloc: Global) -> Mem<Group> {
        Ok(Group {
            key: self.key.copy(alloc)?,
            cells: self.cells.copy(alloc)?,
        })
    }
}

impl Duplicate for Part {
    fn copy(&self, alloc: Global) -> Mem<Part> {
        match self {
            Part::Rows(rows) => Ok(Part::Rows(rows.copy(alloc)?)),
            Part::Groups(groups) => Ok(Part::Groups(groups.copy(alloc)?)),
        }
    }
}
