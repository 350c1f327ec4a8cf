ghost use Rattle.std.specs.Prelude.{◌≡◌, ◌++◌, IfOk, OnOk, map};
ghost use Rattle.std.specs.List.{flat_map};
ghost use Rattle.gx_meaning.specs.Answer.{rows_in};

use gx_ids::Mem;
use gx_tree::{KeyedRow, Part};
use std::alloc::Global;

/// The rows of all parts, in their order: rows that are equal stay as often as they come.
pub fn rows_of<'a>(alloc: Global, parts: &'a [Part]) -> Mem<Vec<&'a KeyedRow>>
    ensures { IfOk result (λ rows. map (λ row. row.now) rows.items ≡ flat_map rows_in parts.now) }
{
    let mut rows = Vec::new(alloc);
    for part in parts {
        add_rows(&mut rows, part_rows(part))?;
    }
    Ok(rows)
}

fn part_rows(part: &Part) -> &[KeyedRow]
    ensures { result.now ≡ rows_in part.now }
{
    match part {
        Part::Rows(rows) => rows.as_slice(),
        Part::Groups(_) => &[],
    }
}

fn add_rows<'a>(rows: &mut Vec<&'a KeyedRow>, more: &'a [KeyedRow]) -> Mem<()>
    ensures { OnOk result (map (λ row. row.now) rows.new.items ≡ map (λ row. row.now) rows.old.items ++ more.now) }
{
    for row in more {
        rows.push(row)?;
    }
    Ok(())
}
