// The lines of a table.
ghost use Rattle.std.specs.Prelude.{◌≡◌, ◌^◌, ◌<◌, ℕ, List, All, IfOk, map};
ghost use Rattle.gx_meaning.specs.Kinds.{kinds_of};
ghost use Rattle.gx_trace.specs.Lawful.{IsValue};
ghost use Rattle.gx_trace.specs.Readers.{EndsNumber, IsEnd, IsRead, IsReaderOf};
ghost use Rattle.gx_trace.specs.Shown.{IsRowOf};
ghost use Rattle.gx_trace_lines.specs.Tables as of;
ghost use Rattle.gx_tree.specs.declared.schema.Schema.{Schema as AnySchema};

use gx_ids::Mem;
use gx_trace::Cursor;
use gx_tree::{Column, Kind, Row, Value};
use std::alloc::Global;

fn has_kind(kind: Kind, value: &Value) -> bool
    ensures { result ≡ of.has_kind kind value.now }
{
    match (kind, value) {
        (Kind::Int, Value::Int(_number)) => true,
        (Kind::Text, Value::Text(_text)) => true,
        _ => false,
    }
}

fn has_kinds(columns: &[Column], values: &[Value]) -> bool
    ensures { result ≡ of.has_kinds columns.now values.now }
{
    let mut left = values;
    for column in columns {
        match left {
            [value, others @ ..] => {
                if !has_kind(column.kind, value) {
                    return false;
                }
                left = others;
            }
            [] => return false,
        }
    }
    left.is_empty()
}

fn values_if_any<'a>(alloc: Global, cursor: &mut Cursor<'a>) -> Mem<Option<Row>>
    ensures { IfOk result (λ read. IsRead read cursor.new (of.values_if_any cursor.old)) }
{
    if cursor.is_at_end() {
        Ok(Some(Row::from_vec(alloc, Vec::new(alloc))?))
    } else {
        cursor.row(alloc)
    }
}

fn row_of_kinds<'a>(alloc: Global, cursor: &mut Cursor<'a>, columns: &[Column]) -> Mem<Option<Row>>
    ensures { IfOk result (λ read. IsRead read cursor.new (of.row_of_kinds columns.now cursor.old)) }
{
    let Some(row) = values_if_any(alloc, cursor)? else {
        return Ok(None);
    };
    if has_kinds(columns, row.as_slice()) {
        Ok(Some(row))
    } else {
        drop(row);
        Ok(None)
    }
}

/// Reads the line of a row of a table with these columns.
pub fn table_row<'a>(alloc: Global, cursor: &mut Cursor<'a>, columns: &[Column]) -> Mem<Option<Row>>
    ensures { IfOk result (λ read. IsRead read cursor.new (of.table_row columns.now cursor.old)) }
{
    match cursor.skip(b"  ") {
        Some(()) => row_of_kinds(alloc, cursor, columns),
        None => Ok(None),
    }
}

/// Reads the line above a table's rows, which has its name and their number.
pub fn table_head<'a>(cursor: &mut Cursor<'a>, name: &[u8]) -> Option<u64>
    ensures { IsRead result cursor.new (of.table_head name.now cursor.old) }
{
    cursor.skip(b"table ")?;
    cursor.skip(name)?;
    cursor.count()
}

/// The line above a table's rows is read as it is printed.
pub fn table_heads_are_read()
    ensures { (name : List ℕ) → IsReaderOf (of.table_head_text name) (λ rows. rows < 2 ^ 64) EndsNumber (of.table_head name) }
{}

/// Rows of tables are read as they are printed, but where a text holds a line feed.
pub fn table_rows_are_read()
    ensures { (schema : AnySchema) → IsReaderOf of.table_row_text (IsRowOf schema) IsEnd (of.table_row schema.columns) }
{}
