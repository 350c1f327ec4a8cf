ghost use Rattle.std.specs.Prelude.{◌≡◌, [], List, IfOk, OnOk, filter};
ghost use Rattle.std.specs.BTreeMap.{get, IsOrdered};
ghost use Rattle.std.specs.List.{flat_map};
ghost use Rattle.gx_tree.specs.declared.value.Value.{Value as RowValue};
ghost use Rattle.gx_gather.specs.Answered.{is_answered};
ghost use Rattle.gx_meaning.specs.Answer.{groups_in};
ghost use Rattle.gx_meaning.specs.Order.{rising};
ghost use Rattle.gx_meaning.specs.Tallies.{tally, total_at};

use crate::groups::{Entry, Groups, add_group, new_groups};
use crate::key::GroupKey;
use gx_ids::{Duplicate, Mem};
use gx_tree::{Group, Item, Part, Query, Value};
use std::alloc::Global;

// The groups of all parts, those of one key together.
pub fn groups_of(alloc: Global, query: &Query, parts: &[Part]) -> Mem<Groups>
    ensures { IfOk result (λ groups. (q : List RowValue) → get rising groups q ≡ tally query.now.items q (total_at query.now [] q) (flat_map groups_in parts.now)) }
{
    let mut groups = new_groups(alloc, query)?;
    for part in parts {
        add_groups(
            alloc,
            &mut groups,
            query.items.as_slice(),
            part_groups(part),
        )?;
    }
    Ok(groups)
}

fn part_groups(part: &Part) -> &[Group]
    ensures { result.now ≡ groups_in part.now }
{
    match part {
        Part::Rows(_) => &[],
        Part::Groups(groups) => groups.as_slice(),
    }
}

fn add_groups(alloc: Global, groups: &mut Groups, items: &[Item], more: &[Group]) -> Mem<()>
    ensures { OnOk result ((q : List RowValue) → get rising groups.new q ≡ tally items.now q (get rising groups.old q) more.now) }
{
    for group in more {
        let key = GroupKey::from_row(alloc, &group.key)?;
        let cells = group.cells.copy(alloc)?;
        add_group(alloc, groups, items, key, cells)?;
    }
    Ok(())
}

// The groups that are answered, rising by their keys.
pub fn answered(alloc: Global, columns: &[u8], groups: Groups) -> Mem<Vec<Entry>>
    ensures listed { IfOk result (λ list. list.items ≡ filter (λ entry. is_answered columns.now entry.0) groups.entries) }
    ensures ordered { IfOk result (λ list. IsOrdered rising groups) }
{
    let list: Vec<Entry> = groups
        .into_iter()
        .filter(|entry| is_answered(columns, entry.0.as_slice()))
        .collect(alloc)?;
    Ok(list)
}

fn is_answered(columns: &[u8], key: &[Value]) -> bool
    ensures { result ≡ is_answered columns.now key.now }
{
    !columns.is_empty() || key.is_empty()
}
