// Rows that are right for a table's columns.
ghost use Rattle.std.specs.Prelude.{◌≡◌, ◌&&◌, map};
ghost use Rattle.std.specs.List.{list_all};
ghost use Rattle.gx_rules.specs.Fits as fits;

use crate::kinds::{kind_of_value, same_kind};
use gx_ids::{Cid, Gxid, Rid};
use gx_tree::{Column, KeyedRow, Value};

fn is_right_row(columns: &[Column], values: &[Value]) -> bool
    ensures { result ≡ fits.is_right_row (map (λ c. c.kind) columns.now) values.now }
{
    match (columns.split_first(), values.split_first()) {
        (None, None) => true,
        (Some((column, columns)), Some((value, values))) => {
            same_kind(column.kind, kind_of_value(value)) && is_right_row(columns, values)
        }
        _ => false,
    }
}

fn is_rid_of(gxid: Gxid, cid: Cid, rid: Rid) -> bool
    ensures { result ≡ fits.is_rid_of gxid cid rid }
{
    rid.gxid == gxid && rid.cid == cid
}

// Rows of this command, each with a value of each column's kind.
pub(crate) fn are_right_rows(columns: &[Column], gxid: Gxid, cid: Cid, rows: &[KeyedRow]) -> bool
    ensures { result ≡ list_all (λ row. fits.is_rid_of gxid cid row.rid && fits.is_right_row (map (λ c. c.kind) columns.now) row.row) rows.now }
{
    rows.iter().all(|row| is_rid_of(gxid, cid, row.rid)
        && is_right_row(columns, row.row.as_slice()))
}
