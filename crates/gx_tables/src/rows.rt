// Rows by their identities.
ghost use Rattle.std.specs.Prelude.{◌≡◌, IfOk, map};
ghost use Rattle.std.specs.BTreeMap.{get, IsOrdered};
ghost use Rattle.gx_meaning.specs.Order.{rid_order};
ghost use Rattle.gx_ids.specs.declared.rid.Rid.{Rid as RowId};
ghost use Rattle.gx_tables.specs.Tables.{AreLastOf, entry_row, last_at};

use gx_ids::{Mem, Rid};
use gx_tree::{KeyedRow, Row};
use std::alloc::Global;
use std::collections::BTreeMap;

// Rows, by their identities.
type Rows = BTreeMap<Rid, Row>;

/// Rows in the order of their identities, of each the last one.
pub fn last_rows(alloc: Global, rows: Vec<KeyedRow>) -> Mem<Vec<KeyedRow>>
    ensures { IfOk result (λ list. AreLastOf rows.items list.items) }
{
    let map = by_rid(alloc, rows)?;
    let list = listed(alloc, map)?;
    Ok(list)
}

fn by_rid(alloc: Global, rows: Vec<KeyedRow>) -> Mem<Rows>
    ensures { IfOk result (λ map. (q : RowId) → get rid_order map q ≡ last_at rows.items q) }
{
    let rows: Rows = rows
        .into_iter()
        .map(|KeyedRow { rid, row }| (rid, row))
        .collect(alloc)?;
    Ok(rows)
}

fn listed(alloc: Global, rows: Rows) -> Mem<Vec<KeyedRow>>
    ensures listed { IfOk result (λ list. list.items ≡ map entry_row rows.entries) }
    ensures ordered { IfOk result (λ list. IsOrdered rid_order rows) }
{
    let list: Vec<KeyedRow> = rows
        .into_iter()
        .map(|(rid, row)| KeyedRow { rid, row })
        .collect(alloc)?;
    Ok(list)
}
