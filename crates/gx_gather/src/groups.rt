ghost use Rattle.std.specs.Prelude.{◌≡◌, ◌∷◌, [], List, IfOk, OnOk, map, if◌then◌else◌};
ghost use Rattle.std.specs.BTreeMap.{get, IsOrdered};
ghost use Rattle.gx_tree.specs.declared.value.Value.{Value as RowValue};
ghost use Rattle.gx_meaning.specs.Aggregates.{aggregate};
ghost use Rattle.gx_meaning.specs.Groups.{is_same_key};
ghost use Rattle.gx_meaning.specs.Order.{rising};
ghost use Rattle.gx_meaning.specs.Tallies.{entry_group, joined, total_at};

use crate::cells::{empty_aggregates, row_aggregates};
use crate::combined::combined_cells;
use crate::key::GroupKey;
use crate::tally::Totals;
use gx_ids::{Duplicate, Mem, Seq};
use gx_tree::{Cell, Group, Item, KeyedRow, Query};
use std::alloc::Global;
use std::collections::BTreeMap;
use std::mem;

// The groups so far, by their keys: the aggregates of each.
pub type Groups = BTreeMap<GroupKey, Totals>;

// A group's key and its aggregates.
pub type Entry = (GroupKey, Totals);

// No groups, but where all rows are one group, that group.
pub fn new_groups(alloc: Global, query: &Query) -> Mem<Groups>
    ensures { IfOk result (λ groups. (q : List RowValue) → get rising groups q ≡ total_at query.now [] q) }
{
    let mut groups = BTreeMap::new(alloc);
    if query.group.is_empty() {
        let cells = empty_aggregates(alloc, query.items.as_slice())?;
        groups.insert(GroupKey::new(alloc), Totals::from_seq(cells))?;
    }
    Ok(groups)
}

// Adds the aggregates over further rows of a group.
pub fn add_group(
    alloc: Global,
    groups: &mut Groups,
    items: &[Item],
    key: GroupKey,
    cells: Seq<Cell>,
) -> Mem<()>
    ensures { OnOk result ((q : List RowValue) → get rising groups.new q ≡ (if is_same_key q key then joined items.now (get rising groups.old q) cells else get rising groups.old q)) }
{
    match groups.get_mut(&key) {
        Some(found) => {
            let before = mem::replace(found, Totals::from_seq(Seq::new(alloc)));
            let after = combined_cells(alloc, items, before.into_seq(), cells)?;
            *found = Totals::from_seq(after);
        }
        None => {
            groups.insert(key, Totals::from_seq(cells))?;
        }
    }
    Ok(())
}

// Adds a row to the aggregates of its group.
pub fn add_to_group(
    alloc: Global,
    groups: &mut Groups,
    items: &[Item],
    key: &GroupKey,
    row: &KeyedRow,
) -> Mem<()>
    ensures { OnOk result ((q : List RowValue) → get rising groups.new q ≡ (if is_same_key q key.now then joined items.now (get rising groups.old q) (map (aggregate (row.now ∷ [])) items.now) else get rising groups.old q)) }
{
    match groups.get_mut(key) {
        Some(found) => found.add_row(alloc, items, row)?,
        None => {
            let cells = row_aggregates(alloc, items, row)?;
            groups.insert(key.copy(alloc)?, Totals::from_seq(cells))?;
        }
    }
    Ok(())
}

// The groups as a list, rising by their keys.
pub fn listed(alloc: Global, groups: Groups) -> Mem<Vec<Group>>
    ensures listed { IfOk result (λ list. list.items ≡ map entry_group groups.entries) }
    ensures ordered { IfOk result (λ list. IsOrdered rising groups) }
{
    let entries = entries_of(alloc, groups)?;
    let list = groups_from(alloc, entries)?;
    Ok(list)
}

fn entries_of(alloc: Global, groups: Groups) -> Mem<Vec<Entry>>
    ensures listed { IfOk result (λ entries. entries.items ≡ groups.entries) }
    ensures ordered { IfOk result (λ entries. IsOrdered rising groups) }
{
    let entries: Vec<Entry> = groups.into_iter().collect(alloc)?;
    Ok(entries)
}

fn groups_from(alloc: Global, entries: Vec<Entry>) -> Mem<Vec<Group>>
    ensures { IfOk result (λ list. list.items ≡ map entry_group entries.items) }
{
    let mut list = Vec::with_capacity(alloc, entries.len())?;
    for entry in entries {
        list.push(group_from(alloc, entry)?)?;
    }
    Ok(list)
}

fn group_from(alloc: Global, entry: Entry) -> Mem<Group>
    ensures { IfOk result (λ group. group ≡ entry_group entry) }
{
    let (key, totals) = entry;
    let cells = totals.into_seq();
    let key = key.into_row(alloc)?;
    Ok(Group { key, cells })
}
