// The text of the final tables, and of a whole run.
ghost use Rattle.std.specs.Prelude.{◌≡◌, ◌++◌, OnOk, IfOk, map};
ghost use Rattle.gx_meaning.specs.Aggregates.{cell_of};
ghost use Rattle.gx_report.specs.Text.{answers_text, cell_text, cells_text, keyed_line, table_text, tables_text, text_of};

use crate::sessions::push_sessions;
use crate::words::push_count_behind;
use gx_ids::Mem;
use gx_script::Script;
use gx_store::Run;
use gx_text::{push_byte, push_bytes, push_integer, push_quoted};
use gx_tree::{KeyedRow, Schema, Value};
use std::alloc::Global;

// A value as an answer has it.
fn push_value(text: &mut Vec<u8>, value: &Value) -> Mem<()>
    ensures { OnOk result (text.new.items ≡ text.old.items ++ cell_text (cell_of value.now)) }
{
    match value {
        Value::Int(number) => push_integer(text, i128::from(*number)),
        Value::Text(bytes) => push_quoted(text, bytes.as_slice()),
    }
}

fn push_values(text: &mut Vec<u8>, values: &[Value]) -> Mem<()>
    ensures { OnOk result (text.new.items ≡ text.old.items ++ cells_text (map cell_of values.now)) }
{
    let [first, others @ ..] = values else {
        return Ok(());
    };
    push_value(text, first)?;
    for value in others {
        push_byte(text, b'|')?;
        push_value(text, value)?;
    }
    Ok(())
}

fn push_keyed_row(text: &mut Vec<u8>, row: &KeyedRow) -> Mem<()>
    ensures { OnOk result (text.new.items ≡ text.old.items ++ keyed_line row.now) }
{
    push_bytes(text, b"  ")?;
    push_values(text, row.row.as_slice())?;
    push_byte(text, b'\n')
}

fn push_table(text: &mut Vec<u8>, name: &[u8], rows: &[KeyedRow]) -> Mem<()>
    ensures { OnOk result (text.new.items ≡ text.old.items ++ table_text name.now rows.now) }
{
    push_bytes(text, b"table ")?;
    push_bytes(text, name)?;
    push_count_behind(text, b" ", rows.len() as u128)?;
    push_byte(text, b'\n')?;
    for row in rows {
        push_keyed_row(text, row)?;
    }
    Ok(())
}

// Each table in the order of the script, with its rows.
fn push_tables(text: &mut Vec<u8>, schemas: &[Schema], tables: &[Vec<KeyedRow>]) -> Mem<()>
    ensures { OnOk result (text.new.items ≡ text.old.items ++ tables_text schemas.now tables.now) }
{
    let [schema, schemas @ ..] = schemas else {
        return Ok(());
    };
    let [rows, tables @ ..] = tables else {
        return Ok(());
    };
    push_table(text, schema.name.as_slice(), rows.as_slice())?;
    push_tables(text, schemas, tables)
}

/// The answers of a run so far, by session.
pub fn answers(alloc: Global, script: &Script, run: &Run) -> Mem<Vec<u8>>
    ensures { IfOk result (λ text. text.items ≡ answers_text script.now run.now) }
{
    let mut text = Vec::new(alloc);
    push_sessions(alloc, &mut text, script.sessions.as_slice(), run)?;
    Ok(text)
}

/// The text of a run that ended with these tables: its answers by session, and then the tables.
pub fn text(alloc: Global, script: &Script, run: &Run, tables: &[Vec<KeyedRow>]) -> Mem<Vec<u8>>
    ensures { IfOk result (λ text. text.items ≡ text_of script.now run.now tables.now) }
{
    let mut text = answers(alloc, script, run)?;
    push_tables(&mut text, script.tables.as_slice(), tables)?;
    Ok(text)
}
