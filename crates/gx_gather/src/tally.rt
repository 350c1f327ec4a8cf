// Aggregates to which rows are added one after the other.
ghost use Rattle.std.specs.Prelude.{◌≡◌, ◌∷◌, [], IfOk, MatchOption, OnOk, map};
ghost use Rattle.gx_tree.specs.declared.cell.Cell.TheVariants.{Int, Null};
ghost use Rattle.gx_gather.specs.Added.{added_at};
ghost use Rattle.gx_meaning.specs.Aggregates.{aggregate};
ghost use Rattle.gx_meaning.specs.Cells.{combine, combine_all};

use crate::cells::{empty_aggregate, row_aggregate};
use crate::combined::{combined, wrapping_sum};
use gx_ids::{Mem, Seq};
use gx_tree::{Cell, Item, KeyedRow};
use std::alloc::Global;
use std::marker::Model;
use std::mem;

// An aggregate over rows.
fn aggregate_over(alloc: Global, item: Item, rows: &[KeyedRow]) -> Mem<Cell>
    ensures { IfOk result (λ cell. cell ≡ aggregate rows.now item) }
{
    let mut cell = empty_aggregate(item);
    for row in rows {
        add_row(alloc, item, &mut cell, row)?;
    }
    Ok(cell)
}

// The aggregates over rows.
pub fn aggregates_over(alloc: Global, items: &[Item], rows: &[KeyedRow]) -> Mem<Seq<Cell>>
    ensures { IfOk result (λ cells. cells ≡ map (aggregate rows.now) items.now) }
{
    let mut cells = Vec::with_capacity(alloc, items.len())?;
    for item in items {
        cells.push(aggregate_over(alloc, *item, rows)?)?;
    }
    Ok(Seq::from_vec(cells))
}

// Adds a row to an aggregate.
fn add_row(alloc: Global, item: Item, cell: &mut Cell, row: &KeyedRow) -> Mem<()>
    ensures { OnOk result (cell.new ≡ combine item cell.old (aggregate (row.now ∷ []) item)) }
{
    match row_aggregate(alloc, item, row)? {
        Cell::Int(number) => add_number(item, cell, number),
        more => add_cell(item, cell, more),
    }
    Ok(())
}

// Adds a number, in place where there is one.
fn add_number(item: Item, cell: &mut Cell, number: i128)
    ensures { cell.new ≡ combine item cell.old (Int number) }
{
    match cell {
        Cell::Int(before) => match both_numbers(item, *before, number) {
            Some(sum) => *before = sum,
            None => *cell = Cell::Null,
        },
        _ => add_cell(item, cell, Cell::Int(number)),
    }
}

fn add_cell(item: Item, cell: &mut Cell, more: Cell)
    ensures { cell.new ≡ combine item cell.old more }
{
    let before = mem::replace(cell, Cell::Null);
    *cell = combined(item, before, more);
}

// The aggregate over two, of which each is a number; a column by itself is none.
fn both_numbers(item: Item, left: i128, right: i128) -> Option<i128>
    ensures { MatchOption result (combine item (Int left) (Int right) ≡ Null) (λ number. combine item (Int left) (Int right) ≡ Int number) }
{
    match item {
        Item::Col(_) => None,
        Item::Count | Item::Sum(_) => Some(wrapping_sum(left, right)),
        Item::Min(_) => Some(if left.cmp(&right).is_gt() {
            right
        } else {
            left
        }),
        Item::Max(_) => Some(if left.cmp(&right).is_gt() {
            left
        } else {
            right
        }),
    }
}

// The aggregates of a group so far, one for each item. Contracts see them as the list of them.
#[derive(Drop)]
pub struct Totals {
    cells: Vec<Cell>,
}

impl Model for Totals {
    ghost use Rattle.std.specs.Prelude.{List};
    ghost use Rattle.gx_tree.specs.declared.cell.Cell.{Cell};

    ghost Value = { List Cell };

    ghost view = { λ totals. totals.cells.items };
}

impl Totals {
    pub fn from_seq(cells: Seq<Cell>) -> Totals
        ensures { result ≡ cells }
    {
        Totals {
            cells: cells.into_vec(),
        }
    }

    pub fn as_slice(&self) -> &[Cell]
        ensures { result.now ≡ self.now }
    {
        self.cells.as_slice()
    }

    pub fn into_seq(self) -> Seq<Cell>
        ensures { result ≡ self }
    {
        let Totals { cells } = self;
        Seq::from_vec(cells)
    }

    // Adds a row of the group.
    pub fn add_row(&mut self, alloc: Global, items: &[Item], row: &KeyedRow) -> Mem<()>
        ensures { OnOk result (self.new ≡ combine_all items.now self.old (map (aggregate (row.now ∷ [])) items.now)) }
    {
        add_to_each(alloc, items, &mut self.cells, row)
    }
}

// Adds a row to the aggregates of all items.
fn add_to_each(alloc: Global, items: &[Item], cells: &mut Vec<Cell>, row: &KeyedRow) -> Mem<()>
    ensures { OnOk result (cells.new.items ≡ combine_all items.now cells.old.items (map (aggregate (row.now ∷ [])) items.now)) }
{
    for place in 0..items.len() {
        add_at(alloc, items[place], place, cells, row)?;
    }
    cells.truncate(items.len());
    Ok(())
}

// Adds a row to the aggregate at a place, where there is one.
fn add_at(alloc: Global, item: Item, place: usize, cells: &mut Vec<Cell>, row: &KeyedRow) -> Mem<()>
    ensures { OnOk result (cells.new.items ≡ added_at item (aggregate (row.now ∷ []) item) place cells.old.items) }
{
    match cells.get_mut(place) {
        Some(cell) => add_row(alloc, item, cell, row)?,
        None => {}
    }
    Ok(())
}
