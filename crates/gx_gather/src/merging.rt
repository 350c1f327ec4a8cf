ghost use Rattle.std.specs.Prelude.{◌≡◌, IfOk, IfSome, Some, map};
ghost use Rattle.std.specs.List.{flat_map};
ghost use Rattle.gx_meaning.specs.Answer.{groups_in, limited, plain_answer, row_keys, rows_in};
ghost use Rattle.gx_meaning.specs.Order.{in_order, row_order};
ghost use Rattle.gx_meaning.specs.Tallies.{entry_group};
ghost use Rattle.gx_gather.specs.Answered.{ordered_groups};
ghost use Rattle.gx_meaning.specs.Merged.{merged_answer, merged_groups};

use crate::first::first_rows;
use crate::groups::Entry;
use crate::merged::{answered, groups_of};
use crate::order::{group_sort_keys, row_sort_keys, sort_entries, sort_rows};
use crate::output::{entries_out, rows_out};
use gx_ids::Mem;
use gx_meaning::{SortKey, rows_of};
use gx_tree::{KeyedRow, OutRow, Part, Query};
use std::alloc::Global;

/// A query's answer from parts in any number and order. Nothing is asked of the parts: rows may come twice, and rows that
/// tie wholly stand in the order in which they came.
pub fn merge_parts(alloc: Global, query: &Query, parts: &[Part]) -> Mem<Vec<OutRow>>
    ensures { IfOk result (λ out. out.items ≡ merged_answer query.now parts.now) }
{
    if query.grouped {
        merge_groups(alloc, query, parts)
    } else {
        merge_rows(alloc, query, parts)
    }
}

fn merge_rows(alloc: Global, query: &Query, parts: &[Part]) -> Mem<Vec<OutRow>>
    ensures { IfOk result (λ out. out.items ≡ limited query.now.limit (plain_answer query.now (flat_map rows_in parts.now))) }
{
    let rows = ordered_rows(alloc, query, parts)?;
    rows_out(alloc, query.items.as_slice(), rows.as_slice())
}

fn ordered_rows<'a>(alloc: Global, query: &Query, parts: &'a [Part]) -> Mem<Vec<&'a KeyedRow>>
    ensures { IfOk result (λ rows. map (λ row. row.now) rows.items ≡ limited query.now.limit (in_order (row_order (row_keys query.now.order)) (flat_map rows_in parts.now))) }
{
    let rows = rows_of(alloc, parts)?;
    let places = row_sort_keys(alloc, query.order.as_slice())?;
    rows_in_order(alloc, places.as_slice(), rows, query.limit)
}

// The rows in order, up to the limit.
fn rows_in_order<'a>(
    alloc: Global,
    keys: &[SortKey],
    rows: Vec<&'a KeyedRow>,
    limit: Option<u64>,
) -> Mem<Vec<&'a KeyedRow>>
    ensures { IfOk result (λ found. map (λ row. row.now) found.items ≡ limited limit (in_order (row_order keys.now) (map (λ row. row.now) rows.entry.items))) }
{
    match few(limit) {
        Some(limit) => first_rows(alloc, keys, rows.as_slice(), limit),
        None => sorted_rows(keys, rows, limit),
    }
}

// The limit, where it is so small that looking for the first rows costs less than a sort of all of them.
fn few(limit: Option<u64>) -> Option<usize>
    ensures { IfSome result (λ few. limit ≡ Some few) }
{
    match limit {
        Some(limit) if limit <= 64 => Some(limit as usize),
        _ => None,
    }
}

fn sorted_rows<'a>(
    keys: &[SortKey],
    mut rows: Vec<&'a KeyedRow>,
    limit: Option<u64>,
) -> Mem<Vec<&'a KeyedRow>>
    ensures { IfOk result (λ found. map (λ row. row.now) found.items ≡ limited limit (in_order (row_order keys.now) (map (λ row. row.now) rows.entry.items))) }
{
    sort_rows(keys, &mut rows)?;
    cut(&mut rows, limit);
    Ok(rows)
}

fn merge_groups(alloc: Global, query: &Query, parts: &[Part]) -> Mem<Vec<OutRow>>
    ensures { IfOk result (λ out. out.items ≡ limited query.now.limit (merged_groups query.now (flat_map groups_in parts.now))) }
{
    let mut entries = ordered_entries(alloc, query, parts)?;
    cut(&mut entries, query.limit);
    entries_out(alloc, query, entries.as_slice())
}

fn ordered_entries(alloc: Global, query: &Query, parts: &[Part]) -> Mem<Vec<Entry>>
    ensures { IfOk result (λ entries. map entry_group entries.items ≡ ordered_groups query.now (flat_map groups_in parts.now)) }
{
    let columns = query.group.as_slice();
    let groups = groups_of(alloc, query, parts)?;
    let mut entries = answered(alloc, columns, groups)?;
    let places = group_sort_keys(alloc, columns, query.order.as_slice())?;
    sort_entries(places.as_slice(), &mut entries)?;
    Ok(entries)
}

fn cut<T: Drop>(items: &mut Vec<T>, limit: Option<u64>)
    ensures { items.new.items ≡ limited limit items.old.items }
{
    if let Some(limit) = limit {
        items.truncate(limit as usize);
    }
}
