ghost use Rattle.std.specs.Prelude.{◌≡◌, IfOk, OnOk, map};
ghost use Rattle.gx_meaning.specs.Answer.{group_keys, row_keys};
ghost use Rattle.gx_meaning.specs.Groups.{place_of};
ghost use Rattle.gx_meaning.specs.Order.{by_place, by_places, group_order, in_order, row_order};

use crate::groups::Entry;
use gx_ids::Mem;
use gx_meaning::SortKey;
use gx_tree::{Key, KeyedRow, Value};
use std::alloc::Global;
use std::cmp::Ordering;

// Rows by places, and those that tie by identity.
pub fn compare_rows(keys: &[SortKey], left: &KeyedRow, right: &KeyedRow) -> Ordering
    ensures { result ≡ row_order keys.now left.now right.now }
{
    compare_at(keys, left.row.as_slice(), right.row.as_slice()).then(left.rid.cmp(&right.rid))
}

fn compare_keys(keys: &[SortKey], left: &[Value], right: &[Value]) -> Ordering
    ensures { result ≡ group_order keys.now left.now right.now }
{
    compare_at(keys, left, right).then(left.cmp(right))
}

// By the first of the places that tells the lists apart.
fn compare_at(keys: &[SortKey], left: &[Value], right: &[Value]) -> Ordering
    ensures { result ≡ by_places keys.now left.now right.now }
{
    for key in keys {
        let order = compare_place(*key, left, right);
        if order != Ordering::Equal {
            return order;
        }
    }
    Ordering::Equal
}

fn compare_place(key: SortKey, left: &[Value], right: &[Value]) -> Ordering
    ensures { result ≡ by_place key left.now right.now }
{
    let order = left.get(key.place).cmp(&right.get(key.place));
    if key.desc { order.reverse() } else { order }
}

// ORDER BY as places in rows.
pub fn row_sort_keys(alloc: Global, order: &[Key]) -> Mem<Vec<SortKey>>
    ensures { IfOk result (λ keys. keys.items ≡ row_keys order.now) }
{
    let mut keys = Vec::with_capacity(alloc, order.len())?;
    for key in order {
        keys.push(SortKey {
            place: usize::from(key.col),
            desc: key.desc,
        })?;
    }
    Ok(keys)
}

// ORDER BY as places in the keys of groups.
pub fn group_sort_keys(alloc: Global, group: &[u8], order: &[Key]) -> Mem<Vec<SortKey>>
    ensures { IfOk result (λ keys. keys.items ≡ group_keys group.now order.now) }
{
    let mut keys = Vec::with_capacity(alloc, order.len())?;
    for key in order {
        keys.push(SortKey {
            place: place_of(group, key.col),
            desc: key.desc,
        })?;
    }
    Ok(keys)
}

// The place of a column among the GROUP BY columns.
pub fn place_of(group: &[u8], column: u8) -> usize
    ensures { result ≡ place_of group.now column }
{
    for (place, candidate) in group.iter().enumerate() {
        if *candidate == column {
            return place;
        }
    }
    group.len()
}

// Rows by the places, then by identity. Those that tie wholly stay in the order in which they came.
pub fn sort_rows(keys: &[SortKey], rows: &mut Vec<&KeyedRow>) -> Mem<()>
    ensures { OnOk result (map (λ row. row.now) rows.new.items ≡ in_order (row_order keys.now) (map (λ row. row.now) rows.old.items)) }
{
    rows.sort_by(|left, right| compare_rows(keys, left, right))?;
    Ok(())
}

// Groups by the places in their keys, then by their keys.
pub fn sort_entries(keys: &[SortKey], entries: &mut Vec<Entry>) -> Mem<()>
    ensures { OnOk result (entries.new.items ≡ in_order (λ a b. group_order keys.now a.0 b.0) entries.old.items) }
{
    entries.sort_by(|left, right| { compare_keys(keys, left.0.as_slice(), right.0.as_slice()) })?;
    Ok(())
}
