ghost use Rattle.std.specs.Prelude.{◌≡◌};

use crate::txt::Txt;
use gx_ids::{Duplicate, Mem, copies};
use std::alloc::Global;
use std::marker::Model;

/// A value of an answer. Counts and sums have 128 bits; `Null` is SUM, MIN or MAX over no rows.
#[derive(Drop, PartialEq, Eq)]
pub enum Cell {
    Int(i128),
    Text(Txt),
    Null,
}

impl Duplicate for Cell {
    fn copy(&self, alloc: Global) -> Mem<Cell> {
        match self {
            Cell::Int(number) => Ok(Cell::Int(*number)),
            Cell::Text(text) => Ok(Cell::Text(text.copy(alloc)?)),
            Cell::Null => Ok(Cell::Null),
        }
    }
}

/// A row of an answer. Contracts see it as the list of its cells, one for each item of the query.
#[derive(Drop)]
pub struct OutRow {
    cells: Vec<Cell>,
}

impl Model for OutRow {
    ghost use Rattle.std.specs.Prelude.{List};
    ghost use Rattle.gx_tree.specs.declared.cell.Cell.{Cell};

    ghost Value = { List Cell };

    ghost view = { λ row. row.cells.items };
}

impl OutRow {
    /// The row of these cells. It takes no memory.
    pub fn from_vec(cells: Vec<Cell>) -> OutRow
        ensures { result ≡ cells.items }
    {
        OutRow { cells }
    }

    /// The cells, in the order of the query's items.
    pub fn as_slice(&self) -> &[Cell]
        ensures { result.now ≡ self.now }
    {
        self.cells.as_slice()
    }
}

impl Duplicate for OutRow {
    fn copy(&self, alloc: Global) -> Mem<OutRow> {
        Ok(OutRow {
            cells: copies(alloc, self.cells.as_slice())?,
        })
    }
}
