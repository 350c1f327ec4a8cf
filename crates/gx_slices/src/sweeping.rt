// The versions of a row that nobody is shown any more go.
ghost use Rattle.std.specs.Prelude.{◌≡◌, ◌≢◌};
ghost use Rattle.gx_ids.specs.declared.ids.Table.{Table};
ghost use Rattle.gx_ids.specs.declared.rid.Rid.{Rid};
ghost use Rattle.gx_sweep.specs.Swept.{swept};
ghost use Rattle.gx_slices.specs.Store.{kept_at};

use gx_ids::{Rid, Table};
use gx_rows::{Versions, XidMap};
use gx_sweep::sweep;
use std::collections::BTreeMap;

// By the horizon of the transactions' entries.
pub(crate) fn sweep_in(
    tables: &mut BTreeMap<Table, Versions>,
    xids: &XidMap,
    table: Table,
    rid: Rid,
)
    ensures swept { kept_at tables.new.entries table rid ≡ swept xids.now xids.now.horizon (kept_at tables.old.entries table rid) }
    ensures rows { (r : Rid) → r ≢ rid → kept_at tables.new.entries table r ≡ kept_at tables.old.entries table r }
    ensures tables { (t : Table) (r : Rid) → t ≢ table → kept_at tables.new.entries t r ≡ kept_at tables.old.entries t r }
{
    if let Some(versions) = tables.get_mut(&table) {
        sweep(versions, rid, xids, xids.horizon());
    }
}
