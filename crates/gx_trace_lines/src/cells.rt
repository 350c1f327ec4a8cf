// The rows of answers.
ghost use Rattle.std.specs.Prelude.{◌≡◌, ◌++◌, ◌^◌, ◌∷◌, [], IfOk};
ghost use Rattle.gx_trace.specs.Lawful.{IsOutRow};
ghost use Rattle.gx_trace.specs.Readers.{IsEnd, IsRead, IsReaderOf, made, to_end};
ghost use Rattle.gx_trace.specs.Values.{minus, negative, plus, positive};
ghost use Rattle.gx_trace_lines.specs.Cells as of;

use crate::choices::skips;
use gx_ids::{Mem, Seq};
use gx_trace::Cursor;
use gx_tree::{Cell, OutRow};
use std::alloc::Global;

// The number behind a minus sign, which isn't 0.
fn below_zero(number: u128) -> Option<i128>
    ensures { result ≡ minus (2 ^ 127) number }
{
    if number == 0 {
        None
    } else if number < 1 << 127 {
        Some(-(number as i128))
    } else if number == 1 << 127 {
        Some(i128::MIN)
    } else {
        None
    }
}

fn from_zero(number: u128) -> Option<i128>
    ensures { result ≡ plus (2 ^ 127) number }
{
    if number < 1 << 127 {
        Some(number as i128)
    } else {
        None
    }
}

fn behind_minus<'a>(cursor: &mut Cursor<'a>) -> Option<i128>
    ensures { IsRead result cursor.new (negative (2 ^ 128) (2 ^ 127) cursor.old) }
{
    cursor.skip(b"-")?;
    let number = cursor.vast_number()?;
    below_zero(number)
}

fn without_minus<'a>(cursor: &mut Cursor<'a>) -> Option<i128>
    ensures { IsRead result cursor.new (positive (2 ^ 128) (2 ^ 127) cursor.old) }
{
    let number = cursor.vast_number()?;
    from_zero(number)
}

fn vast<'a>(cursor: &mut Cursor<'a>) -> Option<i128>
    ensures { IsRead result cursor.new (of.vast cursor.old) }
{
    let left = cursor.left();
    if let Some(number) = behind_minus(cursor) {
        return Some(number);
    }
    cursor.go_to(left);
    without_minus(cursor)
}

fn cell<'a>(alloc: Global, cursor: &mut Cursor<'a>) -> Mem<Option<Cell>>
    ensures { IfOk result (λ read. IsRead read cursor.new (of.cell_at cursor.old)) }
{
    let left = cursor.left();
    if let Some(text) = cursor.text(alloc)? {
        return Ok(Some(Cell::Text(text)));
    }
    cursor.go_to(left);
    if skips(cursor, b"null") {
        return Ok(Some(Cell::Null));
    }
    match vast(cursor) {
        Some(number) => Ok(Some(Cell::Int(number))),
        None => Ok(None),
    }
}

fn other_cell<'a>(alloc: Global, cursor: &mut Cursor<'a>) -> Mem<Option<Cell>>
    ensures { IfOk result (λ read. IsRead read cursor.new (of.other_cell cursor.old)) }
{
    match cursor.skip(b"|") {
        Some(()) => cell(alloc, cursor),
        None => Ok(None),
    }
}

// The cells behind those so far, to the end.
fn other_cells<'a>(
    alloc: Global,
    cursor: &mut Cursor<'a>,
    mut cells: Seq<Cell>,
) -> Mem<Option<Seq<Cell>>>
    ensures { IfOk result (λ read. IsRead read cursor.new (made (λ others. cells ++ others) (to_end of.other_cell cursor.old))) }
{
    let most = cursor.left().len();
    for _step in 0..most {
        if cursor.is_at_end() {
            return Ok(Some(cells));
        }
        match other_cell(alloc, cursor)? {
            Some(cell) => cells.push(cell)?,
            None => return Ok(None),
        }
    }
    if cursor.is_at_end() {
        Ok(Some(cells))
    } else {
        Ok(None)
    }
}

fn cells<'a>(alloc: Global, cursor: &mut Cursor<'a>) -> Mem<Option<OutRow>>
    ensures { IfOk result (λ read. IsRead read cursor.new (of.cells cursor.old)) }
{
    let Some(first) = cell(alloc, cursor)? else {
        return Ok(None);
    };
    let mut cells = Seq::new(alloc);
    cells.push(first)?;
    match other_cells(alloc, cursor, cells)? {
        Some(cells) => Ok(Some(OutRow::from_vec(cells.into_vec()))),
        None => Ok(None),
    }
}

/// Reads the line of a row of an answer.
pub fn out_row<'a>(alloc: Global, cursor: &mut Cursor<'a>) -> Mem<Option<OutRow>>
    ensures { IfOk result (λ read. IsRead read cursor.new (of.out_row cursor.old)) }
{
    match cursor.skip(b"  ") {
        Some(()) => cells(alloc, cursor),
        None => Ok(None),
    }
}

/// Rows of answers are read as they are printed, but where a text holds a line feed.
pub fn out_rows_are_read()
    ensures { IsReaderOf of.out_row_text IsOutRow IsEnd of.out_row }
{}
