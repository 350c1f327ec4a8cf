// The first rows in an order, where few of them are wanted.
ghost use Rattle.std.specs.Prelude.{◌≡◌, ◌≤◌, ◌∷◌, ◌++◌, [], ℕ, IfOk, IsTrue, List, OnOk, length, take};
ghost use Rattle.std.specs.Borrow.{Bor};
ghost use Rattle.std.specs.List.{insert};
ghost use Rattle.gx_tree.specs.declared.row.KeyedRow.{KeyedRow as OneRow};
ghost use Rattle.gx_meaning.specs.Order.{in_order, row_order};
ghost use Rattle.gx_gather.specs.First.{behind};

use crate::order::compare_rows;
use gx_ids::Mem;
use gx_meaning::SortKey;
use gx_tree::KeyedRow;
use std::alloc::Global;

// The first of the rows in order, up to the limit.
pub fn first_rows<'a>(
    alloc: Global,
    keys: &[SortKey],
    rows: &[&'a KeyedRow],
    limit: usize,
) -> Mem<Vec<&'a KeyedRow>>
    ensures { IfOk result (λ first. first.items ≡ take limit (in_order (λ a b. row_order keys.now a.now b.now) rows.now)) }
{
    let mut first = Vec::new(alloc);
    for row in rows {
        put_behind(keys, &mut first, *row, limit)?;
    }
    Ok(first)
}

// Puts a row behind those of the first ones that aren't above it.
fn put_behind<'a>(
    keys: &[SortKey],
    first: &mut Vec<&'a KeyedRow>,
    row: &'a KeyedRow,
    limit: usize,
) -> Mem<()>
    ensures { OnOk result ((rows : List (Bor OneRow)) → first.old.items ≡ take limit (in_order (λ a b. row_order keys.now a.now b.now) rows) → first.new.items ≡ take limit (in_order (λ a b. row_order keys.now a.now b.now) (rows ++ row.entry ∷ []))) }
{
    let place = place_behind(keys, first.as_slice(), &row);
    if place < limit {
        put_at(first, place, row, limit)?;
    }
    Ok(())
}

// Puts a row at a place, and cuts what is past the limit.
fn put_at<'a>(
    first: &mut Vec<&'a KeyedRow>,
    place: usize,
    row: &'a KeyedRow,
    limit: usize,
) -> Mem<()>
    requires { place ≤ length first.old.items }
    ensures { OnOk result (first.new.items ≡ take limit (insert first.old.items place row.entry)) }
{
    first.insert(place, row)?;
    first.truncate(limit);
    Ok(())
}

// The place behind those of the first rows that aren't above the row.
fn place_behind(keys: &[SortKey], first: &[&KeyedRow], row: &&KeyedRow) -> usize
    ensures bound { result ≤ length first.now }
    ensures place { (limit : ℕ) (rows : List (Bor OneRow)) → first.now ≡ take limit (in_order (λ a b. row_order keys.now a.now b.now) rows) → insert first.now result row.now ≡ behind (λ a b. row_order keys.now a.now b.now) row.now first.now }
{
    if is_below_first(keys, first, row) {
        0
    } else {
        last_place_behind(keys, first, row)
    }
}

fn is_below_first(keys: &[SortKey], first: &[&KeyedRow], row: &&KeyedRow) -> bool
    ensures { IsTrue result → insert first.now 0 row.now ≡ behind (λ a b. row_order keys.now a.now b.now) row.now first.now }
{
    match first.first() {
        Some(least) => compare_rows(keys, least, row).is_gt(),
        None => false,
    }
}

// The same from the end on.
fn last_place_behind(keys: &[SortKey], first: &[&KeyedRow], row: &&KeyedRow) -> usize
    ensures bound { result ≤ length first.now }
    ensures place { (limit : ℕ) (rows : List (Bor OneRow)) → first.now ≡ take limit (in_order (λ a b. row_order keys.now a.now b.now) rows) → insert first.now result row.now ≡ behind (λ a b. row_order keys.now a.now b.now) row.now first.now }
{
    for place in (0..first.len()).rev() {
        if !compare_rows(keys, first[place], row).is_gt() {
            return place + 1;
        }
    }
    0
}
