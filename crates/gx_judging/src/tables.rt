// Whether the tables that a text shows are those at the end of the run.
ghost use Rattle.std.specs.Prelude.{◌≡◌, ◌↔◌, ◌≤◌, length, map, IfOk, IsTrue};
ghost use Rattle.gx_store.specs.Language.{IsScript};
ghost use Rattle.gx_trace.specs.ShownText.{row_of};
ghost use Rattle.gx_judging.specs.Shown.{AreShownFrom, AreTablesShown, IsTableShown};

use gx_ids::{Mem, Seq, Table};
use gx_legal::view;
use gx_script::Script;
use gx_store::Mark;
use gx_tree::{KeyedRow, Row, Value};
use std::alloc::Global;

fn is_same_row(a: &[Value], b: &[Value]) -> bool
    ensures { IsTrue result ↔ (a.now ≡ b.now) }
{
    *a == *b
}

fn are_rows(rows: &[KeyedRow], shown: &[Row]) -> bool
    ensures { IsTrue result ↔ (map row_of rows.now ≡ shown.now) }
{
    if rows.len() != shown.len() {
        return false;
    }
    for place in 0..rows.len() {
        let own = &rows[place];
        let row = &shown[place];
        if !is_same_row(own.row.as_slice(), row.as_slice()) {
            return false;
        }
    }
    true
}

fn is_table_shown(alloc: Global, marks: &[Mark], table: Table, shown: &[Row]) -> Mem<bool>
    ensures { IfOk result (λ is. IsTrue is ↔ IsTableShown marks.now table shown.now) }
{
    let rows = view(alloc, marks, marks, None, table)?;
    let are = are_rows(rows.as_slice(), shown);
    Ok(are)
}

fn are_shown(alloc: Global, marks: &[Mark], tables: &[Seq<Row>]) -> Mem<bool>
    requires { length tables.now ≤ 64 }
    ensures { IfOk result (λ are. IsTrue are ↔ AreShownFrom 0 marks.now tables.now) }
{
    for place in 0..tables.len() {
        let shown = &tables[place];
        if !is_table_shown(alloc, marks, Table(place as u8), shown.as_slice())? {
            return Ok(false);
        }
    }
    Ok(true)
}

/// Whether each table of the script has its rows.
pub(crate) fn are_tables_shown(
    alloc: Global,
    script: &Script,
    marks: &[Mark],
    tables: &[Seq<Row>],
) -> Mem<bool>
    requires { IsScript script.now }
    ensures { IfOk result (λ are. IsTrue are ↔ AreTablesShown script.now marks.now tables.now) }
{
    if tables.len() != script.tables.len() {
        return Ok(false);
    }
    are_shown(alloc, marks, tables)
}
