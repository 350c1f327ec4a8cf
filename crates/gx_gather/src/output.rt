ghost use Rattle.std.specs.Prelude.{◌≡◌, IfOk, map};
ghost use Rattle.gx_meaning.specs.Answer.{row_cell};
ghost use Rattle.gx_meaning.specs.Tallies.{entry_group, out_cell, out_row};

use crate::cells::cell_at_place;
use crate::groups::Entry;
use crate::order::place_of;
use gx_ids::{Duplicate, Mem};
use gx_tree::{Cell, Item, KeyedRow, OutRow, Query, Value};
use std::alloc::Global;

// The items of each row.
pub fn rows_out(alloc: Global, items: &[Item], rows: &[&KeyedRow]) -> Mem<Vec<OutRow>>
    ensures { IfOk result (λ out. out.items ≡ map (λ row. map (row_cell row.now) items.now) rows.now) }
{
    let mut out = Vec::with_capacity(alloc, rows.len())?;
    for row in rows {
        out.push(row_out(alloc, items, row)?)?;
    }
    Ok(out)
}

fn row_out(alloc: Global, items: &[Item], row: &KeyedRow) -> Mem<OutRow>
    ensures { IfOk result (λ out. out ≡ map (row_cell row.now) items.now) }
{
    let mut cells = Vec::with_capacity(alloc, items.len())?;
    for item in items {
        cells.push(row_cell(alloc, *item, row)?)?;
    }
    Ok(OutRow::from_vec(cells))
}

fn row_cell(alloc: Global, item: Item, row: &KeyedRow) -> Mem<Cell>
    ensures { IfOk result (λ cell. cell ≡ row_cell row.now item) }
{
    match item {
        Item::Col(column) => cell_at_place(alloc, row.row.as_slice(), usize::from(column)),
        _ => Ok(Cell::Null),
    }
}

// The items of each group.
pub fn entries_out(alloc: Global, query: &Query, entries: &[Entry]) -> Mem<Vec<OutRow>>
    ensures { IfOk result (λ out. out.items ≡ map (λ entry. out_row query.now (entry_group entry)) entries.now) }
{
    let mut out = Vec::with_capacity(alloc, entries.len())?;
    for entry in entries {
        out.push(entry_out(alloc, query, entry)?)?;
    }
    Ok(out)
}

fn entry_out(alloc: Global, query: &Query, entry: &Entry) -> Mem<OutRow>
    ensures { IfOk result (λ out. out ≡ out_row query.now (entry_group entry.now)) }
{
    let (columns, key) = (query.group.as_slice(), entry.0.as_slice());
    let mut out = Vec::with_capacity(alloc, query.items.len())?;
    for (item, cell) in query.items.as_slice().iter().zip(entry.1.as_slice()) {
        out.push(out_cell(alloc, columns, key, *item, cell)?)?;
    }
    Ok(OutRow::from_vec(out))
}

fn out_cell(alloc: Global, columns: &[u8], key: &[Value], item: Item, cell: &Cell) -> Mem<Cell>
    ensures { IfOk result (λ out. out ≡ out_cell columns.now key.now item cell.now) }
{
    match item {
        Item::Col(column) => cell_at_place(alloc, key, place_of(columns, column)),
        _ => cell.copy(alloc),
    }
}
