ghost use Rattle.std.specs.Prelude.{◌≡◌, ◌+ℤ◌, IfOk};
ghost use Rattle.std.specs.Int.{int_wrap, w128};
ghost use Rattle.gx_meaning.specs.Cells.{add, cell_order, combine, combine_all, greater_cell, is_null, lesser_cell};

use gx_ids::{Mem, Seq};
use gx_tree::{Cell, Item};
use std::alloc::Global;
use std::cmp::Ordering;

// The aggregates over the rows of both.
pub fn combined_cells(
    alloc: Global,
    items: &[Item],
    left: Seq<Cell>,
    right: Seq<Cell>,
) -> Mem<Seq<Cell>>
    ensures { IfOk result (λ cells. cells ≡ combine_all items.now left right) }
{
    let pairs = left.into_vec().into_iter().zip(right.into_vec());
    let cells = items.iter().zip(pairs);
    let cells: Vec<Cell> = cells
        .map(|(item, (left, right))| combined(*item, left, right))
        .collect(alloc)?;
    Ok(Seq::from_vec(cells))
}

pub fn combined(item: Item, left: Cell, right: Cell) -> Cell
    ensures { result ≡ combine item left right }
{
    match item {
        Item::Col(_) => Cell::Null,
        Item::Count | Item::Sum(_) => added(left, right),
        Item::Min(_) => lesser_cell(left, right),
        Item::Max(_) => greater_cell(left, right),
    }
}

fn added(left: Cell, right: Cell) -> Cell
    ensures { result ≡ add left right }
{
    match (left, right) {
        (Cell::Int(a), Cell::Int(b)) => Cell::Int(wrapping_sum(a, b)),
        (Cell::Null, other) => other,
        (other, _) => other,
    }
}

#[tactic(auto, using(std::proofs::lemmas::Int::wraps))]
pub fn wrapping_sum(a: i128, b: i128) -> i128
    ensures { result ≡ int_wrap w128 (a +ℤ b) }
{
    a.wrapping_add(b)
}

fn lesser_cell(left: Cell, right: Cell) -> Cell
    ensures { result ≡ lesser_cell left right }
{
    if is_null(&left) || (!is_null(&right) && compare_cells(&left, &right).is_gt()) {
        right
    } else {
        left
    }
}

fn greater_cell(left: Cell, right: Cell) -> Cell
    ensures { result ≡ greater_cell left right }
{
    if is_null(&left) || (!is_null(&right) && !compare_cells(&left, &right).is_gt()) {
        right
    } else {
        left
    }
}

fn is_null(cell: &Cell) -> bool
    ensures { result ≡ is_null cell.now }
{
    matches!(cell, Cell::Null)
}

fn compare_cells(left: &Cell, right: &Cell) -> Ordering
    ensures { result ≡ cell_order left.now right.now }
{
    match (left, right) {
        (Cell::Int(left), Cell::Int(right)) => left.cmp(right),
        (Cell::Text(left), Cell::Text(right)) => left.cmp(right),
        (Cell::Int(_), Cell::Text(_)) => Ordering::Less,
        (Cell::Text(_), Cell::Int(_)) => Ordering::Greater,
        _ => Ordering::Equal,
    }
}
