// The names of tables and columns.
ghost use Rattle.std.specs.Prelude.{◌≡◌};
ghost use Rattle.gx_print.specs.Written as of;

use gx_ids::Table;
use gx_tree::{Column, Schema};

/// The name of a table, empty where no table has this place.
pub fn table_name(tables: &[Schema], table: Table) -> &[u8]
    ensures { result.now ≡ of.table_name tables.now table.0 }
{
    match tables.get(usize::from(table.0)) {
        Some(schema) => schema.name.as_slice(),
        None => &[],
    }
}

/// The columns of a table, none where no table has this place.
pub fn columns_of(tables: &[Schema], table: Table) -> &[Column]
    ensures { result.now ≡ of.columns_of tables.now table.0 }
{
    match tables.get(usize::from(table.0)) {
        Some(schema) => schema.columns.as_slice(),
        None => &[],
    }
}

/// The name of a column, empty where no column has this place.
pub fn column_name(columns: &[Column], place: u8) -> &[u8]
    ensures { result.now ≡ of.column_name columns.now place }
{
    match columns.get(usize::from(place)) {
        Some(column) => column.name.as_slice(),
        None => &[],
    }
}
