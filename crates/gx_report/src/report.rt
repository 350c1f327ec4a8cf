// The text of answers.
ghost use Rattle.std.specs.Prelude.{◌≡◌, ◌++◌, OnOk};
ghost use Rattle.std.specs.List.{flat_map};
ghost use Rattle.gx_report.specs.Text.{answer_text, cell_text, cells_text, counted_text, line_text, row_line};

use crate::error::push_error;
use crate::words::push_count_behind;
use gx_ids::Mem;
use gx_store::StmtAnswer;
use gx_text::{push_byte, push_bytes, push_integer, push_quoted};
use gx_tree::{Cell, OutRow};

fn push_cell(text: &mut Vec<u8>, cell: &Cell) -> Mem<()>
    ensures { OnOk result (text.new.items ≡ text.old.items ++ cell_text cell.now) }
{
    match cell {
        Cell::Int(number) => push_integer(text, *number),
        Cell::Text(bytes) => push_quoted(text, bytes.as_slice()),
        Cell::Null => push_bytes(text, b"null"),
    }
}

fn push_cells(text: &mut Vec<u8>, cells: &[Cell]) -> Mem<()>
    ensures { OnOk result (text.new.items ≡ text.old.items ++ cells_text cells.now) }
{
    let [first, others @ ..] = cells else {
        return Ok(());
    };
    push_cell(text, first)?;
    for cell in others {
        push_byte(text, b'|')?;
        push_cell(text, cell)?;
    }
    Ok(())
}

// A row of an answer, on a line of its own.
fn push_row(text: &mut Vec<u8>, cells: &[Cell]) -> Mem<()>
    ensures { OnOk result (text.new.items ≡ text.old.items ++ row_line cells.now) }
{
    push_bytes(text, b"  ")?;
    push_cells(text, cells)?;
    push_byte(text, b'\n')
}

fn push_rows(text: &mut Vec<u8>, rows: &[OutRow]) -> Mem<()>
    ensures { OnOk result (text.new.items ≡ text.old.items ++ flat_map row_line rows.now) }
{
    for row in rows {
        push_row(text, row.as_slice())?;
    }
    Ok(())
}

// A statement's name and the number of its rows, on a line of its own.
fn push_counted(text: &mut Vec<u8>, name: &[u8], count: u128) -> Mem<()>
    ensures { OnOk result (text.new.items ≡ text.old.items ++ counted_text name.now count) }
{
    push_count_behind(text, name, count)?;
    push_byte(text, b'\n')
}

fn push_answer(text: &mut Vec<u8>, answer: &StmtAnswer) -> Mem<()>
    ensures { OnOk result (text.new.items ≡ text.old.items ++ answer_text answer.now) }
{
    match answer {
        StmtAnswer::Begin => push_bytes(text, b"BEGIN\n"),
        StmtAnswer::Commit => push_bytes(text, b"COMMIT\n"),
        StmtAnswer::Rollback => push_bytes(text, b"ROLLBACK\n"),
        StmtAnswer::Locked => push_bytes(text, b"LOCK TABLE\n"),
        StmtAnswer::Inserted(count) => push_counted(text, b"INSERT ", *count),
        StmtAnswer::Updated(count) => push_counted(text, b"UPDATE ", *count),
        StmtAnswer::Deleted(count) => push_counted(text, b"DELETE ", *count),
        StmtAnswer::Rows(rows) => {
            push_counted(text, b"SELECT ", rows.len() as u128)?;
            push_rows(text, rows.as_slice())
        }
        StmtAnswer::Refused(refused) => push_error(text, *refused),
    }
}

/// Adds an answer behind its line's session and number.
pub fn push_line(text: &mut Vec<u8>, name: &[u8], number: u32, answer: &StmtAnswer) -> Mem<()>
    ensures { OnOk result (text.new.items ≡ text.old.items ++ line_text name.now number answer.now) }
{
    push_bytes(text, name)?;
    push_count_behind(text, b".", u128::from(number))?;
    push_byte(text, b' ')?;
    push_answer(text, answer)
}
