ghost use Rattle.std.specs.Prelude.{◌≡◌, Some};
ghost use Rattle.gx_node.specs.Right.{IsRightFor};
ghost use Rattle.gx_rules.specs.Fits as fits;

use crate::assigns::is_right_change;
use crate::kinds::is_right_condition;
use crate::query::is_right_query;
use crate::rows::are_right_rows;
use gx_ids::{Cid, Gxid, Table};
use gx_tree::{Schema, Slice};

fn table_of(slice: &Slice) -> Table
    ensures { result.0 ≡ fits.table_of slice.now }
{
    match slice {
        Slice::Select(query) => query.get().table,
        Slice::Insert(table, _) => *table,
        Slice::Update(table, _, _) => *table,
        Slice::Delete(table, _) => *table,
        Slice::Lock(table, _) => *table,
    }
}

// The slice is right for its table.
fn is_right_on(schema: &Schema, gxid: Gxid, cid: Cid, slice: &Slice) -> bool
    ensures { result ≡ fits.is_right_on gxid cid (Some schema.now) slice.now }
{
    let columns = schema.columns.as_slice();
    match slice {
        Slice::Select(query) => is_right_query(columns, query.get()),
        Slice::Insert(_, rows) => { are_right_rows(columns, gxid, cid, rows.get().as_slice()) },
        Slice::Update(_, assigns, cond) => {
            is_right_change(columns, assigns.get().as_slice(), cond.get())
        },
        Slice::Delete(_, cond) => is_right_condition(columns, cond.get()),
        Slice::Lock(_, _) => true,
    }
}

/// Whether a slice is right for a script's tables: a query whose columns are there and whose comparisons are of one kind, or
/// rows of this very command with a value of each column's kind, or assignments of each column's kind, or a lock.
pub fn is_right_slice(tables: &[Schema], gxid: Gxid, cid: Cid, slice: &Slice) -> bool
    ensures { IsRightFor tables.now gxid cid slice.now result }
{
    match tables.get(usize::from(table_of(slice).0)) {
        Some(schema) => is_right_on(schema, gxid, cid, slice),
        None => false,
    }
}

/// Whether a slice reads nothing, so that it needs no snapshot.
pub fn reads_nothing(slice: &Slice) -> bool
    ensures { result ≡ fits.reads_nothing slice.now }
{
    match slice {
        Slice::Lock(_, _) => true,
        _ => false,
    }
}
