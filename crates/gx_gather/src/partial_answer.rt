ghost use Rattle.std.specs.Prelude.{◌≡◌, ◌∷◌, [], List, IfOk, map};
ghost use Rattle.std.specs.BTreeMap.{get};
ghost use Rattle.gx_tree.specs.declared.value.Value.{Value as RowValue};
ghost use Rattle.gx_meaning.specs.Answer.{part_of};
ghost use Rattle.gx_gather.specs.Added.{group_of_all};
ghost use Rattle.gx_tree.specs.declared.part.Part.TheVariants.{Groups};
ghost use Rattle.gx_meaning.specs.Order.{rising};
ghost use Rattle.gx_meaning.specs.Tallies.{row_group, tally, total_at};

use crate::groups::{Groups, add_to_group, listed, new_groups};
use crate::key::GroupKey;
use crate::tally::aggregates_over;
use gx_ids::{Mem, Seq, copies};
use gx_tree::{Group, Item, KeyedRow, Part, Query, Row};
use std::alloc::Global;

/// A segment's part of a query's answer, from its rows on which the condition holds, in the order of their identities:
/// the rows, or the aggregates of the groups.
pub fn partial(alloc: Global, query: &Query, rows: &[KeyedRow]) -> Mem<Part>
    ensures { IfOk result (λ part. part ≡ part_of query.now rows.now) }
{
    if query.grouped {
        if query.group.is_empty() {
            one_group(alloc, query.items.as_slice(), rows)
        } else {
            let groups = group_rows(alloc, query, rows)?;
            Ok(Part::Groups(Seq::from_vec(listed(alloc, groups)?)))
        }
    } else {
        Ok(Part::Rows(Seq::from_vec(copies(alloc, rows)?)))
    }
}

// The group of all rows.
fn one_group(alloc: Global, items: &[Item], rows: &[KeyedRow]) -> Mem<Part>
    ensures { IfOk result (λ part. part ≡ Groups (group_of_all items.now rows.now ∷ [])) }
{
    let cells = aggregates_over(alloc, items, rows)?;
    let key = Row::from_vec(alloc, Vec::new(alloc))?;
    let mut groups = Seq::new(alloc);
    groups.push(Group { key, cells })?;
    Ok(Part::Groups(groups))
}

// The groups of the rows.
fn group_rows(alloc: Global, query: &Query, rows: &[KeyedRow]) -> Mem<Groups>
    ensures { IfOk result (λ groups. (q : List RowValue) → get rising groups q ≡ tally query.now.items q (total_at query.now [] q) (map (row_group query.now) rows.now)) }
{
    let mut groups = new_groups(alloc, query)?;
    let mut key = GroupKey::new(alloc);
    for row in rows {
        key.set(alloc, query.group.as_slice(), row)?;
        add_to_group(alloc, &mut groups, query.items.as_slice(), &key, row)?;
    }
    Ok(groups)
}
