ghost use Rattle.std.specs.Prelude.{◌≡◌, ◌++◌, IfOk, OnOk};
ghost use Rattle.std.specs.Option.{option_copied};
ghost use Rattle.gx_slices.specs.Filed.{keyed};

use gx_ids::{Duplicate, Mem, Rid};
use gx_tree::{KeyedRow, Row};
use std::alloc::Global;
use std::marker::Model;

/// A row that is shown, where it stands, with its identity. Contracts see both.
#[derive(Drop)]
pub(crate) struct ShownRow<'a> {
    rid: Rid,
    row: &'a Row,
}

impl<'a> Model for ShownRow<'a> {
    ghost use Rattle.gx_tree.specs.declared.row.KeyedRow.{KeyedRow};

    ghost Value = { KeyedRow };

    ghost view = { λ shown. record { rid = shown.rid; row = shown.row.now } };
}

impl<'a> ShownRow<'a> {
    pub(crate) fn new(rid: Rid, row: &'a Row) -> ShownRow<'a>
        ensures { result ≡ record { rid = rid; row = row.now } }
    {
        ShownRow { rid, row }
    }

    pub(crate) fn row(&self) -> &Row
        ensures { result.now ≡ self.now.row }
    {
        self.row
    }

    // A copy that stands by itself.
    pub(crate) fn to_keyed(&self, alloc: Global) -> Mem<KeyedRow>
        ensures { IfOk result (λ row. row ≡ self.now) }
    {
        Ok(KeyedRow {
            rid: self.rid,
            row: self.row.copy(alloc)?,
        })
    }
}

// Adds a row, if there is one.
pub(crate) fn push_shown<'a>(
    rows: &mut Vec<ShownRow<'a>>,
    rid: Rid,
    row: Option<&'a Row>,
) -> Mem<()>
    ensures { OnOk result (rows.new.items ≡ rows.old.items ++ keyed rid (option_copied row.entry)) }
{
    if let Some(row) = row {
        rows.push(ShownRow::new(rid, row))?;
    }
    Ok(())
}

// Copies of all of them.
pub(crate) fn to_all_keyed(alloc: Global, shown: &[ShownRow<'_>]) -> Mem<Vec<KeyedRow>>
    ensures { IfOk result (λ rows. rows.items ≡ shown.now) }
{
    let mut rows = Vec::with_capacity(alloc, shown.len())?;
    for row in shown {
        rows.push(row.to_keyed(alloc)?)?;
    }
    Ok(rows)
}
