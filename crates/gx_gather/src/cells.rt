ghost use Rattle.std.specs.Prelude.{◌≡◌, ◌∷◌, [], IfOk, map, slice_get};
ghost use Rattle.gx_meaning.specs.Aggregates.{aggregate, cell_at, cell_of};
ghost use Rattle.gx_meaning.specs.Cells.{number_at};

use gx_ids::{Duplicate, Mem, Seq};
use gx_tree::{Cell, Item, KeyedRow, Value};
use std::alloc::Global;

// A value as a cell.
fn value_cell(alloc: Global, value: &Value) -> Mem<Cell>
    ensures { IfOk result (λ cell. cell ≡ cell_of value.now) }
{
    match value {
        Value::Int(number) => Ok(Cell::Int(i128::from(*number))),
        Value::Text(text) => Ok(Cell::Text(text.copy(alloc)?)),
    }
}

// The value at a place as a cell, null where there is none.
pub fn cell_at_place(alloc: Global, values: &[Value], place: usize) -> Mem<Cell>
    ensures { IfOk result (λ cell. cell ≡ cell_at (slice_get values.now place)) }
{
    match values.get(place) {
        Some(value) => value_cell(alloc, value),
        None => Ok(Cell::Null),
    }
}

// The number at a place as a cell, null where there is none.
fn number_at_place(values: &[Value], place: usize) -> Cell
    ensures { result ≡ number_at (slice_get values.now place) }
{
    match values.get(place) {
        Some(Value::Int(number)) => Cell::Int(i128::from(*number)),
        _ => Cell::Null,
    }
}

// An aggregate over one row.
pub fn row_aggregate(alloc: Global, item: Item, row: &KeyedRow) -> Mem<Cell>
    ensures { IfOk result (λ cell. cell ≡ aggregate (row.now ∷ []) item) }
{
    let values = row.row.as_slice();
    match item {
        Item::Col(_) => Ok(Cell::Null),
        Item::Count => Ok(Cell::Int(1)),
        Item::Sum(column) => Ok(number_at_place(values, usize::from(column))),
        Item::Min(column) | Item::Max(column) => {
            cell_at_place(alloc, values, usize::from(column))
        }
    }
}

// The aggregates over one row.
pub fn row_aggregates(alloc: Global, items: &[Item], row: &KeyedRow) -> Mem<Seq<Cell>>
    ensures { IfOk result (λ cells. cells ≡ map (aggregate (row.now ∷ [])) items.now) }
{
    let mut cells = Vec::with_capacity(alloc, items.len())?;
    for item in items {
        cells.push(row_aggregate(alloc, *item, row)?)?;
    }
    Ok(Seq::from_vec(cells))
}

// An aggregate over no rows.
pub fn empty_aggregate(item: Item) -> Cell
    ensures { result ≡ aggregate [] item }
{
    match item {
        Item::Count => Cell::Int(0),
        _ => Cell::Null,
    }
}

// The aggregates over no rows.
pub fn empty_aggregates(alloc: Global, items: &[Item]) -> Mem<Seq<Cell>>
    ensures { IfOk result (λ cells. cells ≡ map (aggregate []) items.now) }
{
    let mut cells = Vec::with_capacity(alloc, items.len())?;
    for item in items {
        cells.push(empty_aggregate(*item))?;
    }
    Ok(Seq::from_vec(cells))
}
