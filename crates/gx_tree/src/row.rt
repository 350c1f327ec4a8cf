ghost use Rattle.std.specs.Prelude.{◌≡◌, IfOk};

use crate::value::Value;
use gx_ids::{Duplicate, Mem, Rid, Seq, Shared};
use std::alloc::Global;
use std::marker::Model;

/// A row of a table, which all who have a copy share. Contracts see it as the list of its values, one for each column in order.
#[derive(Drop)]
pub struct Row {
    values: Shared<Seq<Value>>,
}

impl Model for Row {
    ghost use Rattle.std.specs.Prelude.{List};
    ghost use Rattle.gx_tree.specs.declared.value.Value.{Value as RowValue};

    ghost Value = { List RowValue };

    ghost view = { λ row. row.values };
}

impl Row {
    /// The row of these values.
    pub fn from_vec(alloc: Global, values: Vec<Value>) -> Mem<Row>
        ensures { IfOk result (λ row. row ≡ values.items) }
    {
        Ok(Row {
            values: Shared::new(alloc, Seq::from_vec(values))?,
        })
    }

    /// The values, in the order of the columns.
    pub fn as_slice(&self) -> &[Value]
        ensures { result.now ≡ self.now }
    {
        self.values.get().as_slice()
    }
}

impl Duplicate for Row {
    fn copy(&self, alloc: Global) -> Mem<Row> {
        Ok(Row {
            values: self.values.copy(alloc)?,
        })
    }
}

/// A row with its identity.
#[derive(Drop)]
pub struct KeyedRow {
    pub rid: Rid,
    pub row: Row,
}

impl Duplicate for KeyedRow {
    fn copy(&self, alloc: Global) -> Mem<KeyedRow> {
        Ok(KeyedRow {
            rid: self.rid,
            row: self.row.copy(alloc)?,
        })
    }
}
