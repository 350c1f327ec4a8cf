// The tables of a run, each with its rows.
ghost use Rattle.gx_read_trace.specs.GoingOn as of;

use crate::fault::TraceFault;
use crate::lines::Lines;
use crate::whole_lines::{take_table_head, take_table_row};
use gx_ids::Seq;
use gx_script::Script;
use gx_tree::{Row, Schema};
use std::alloc::Global;

#[tactic(auto, using(crate::proofs::Onward::table_start, crate::proofs::Onward::table_fails, crate::proofs::Onward::table_row_more, crate::proofs::Onward::table_row_fails, crate::proofs::Onward::table_end))]
fn read_table<'a>(
    alloc: Global,
    lines: &mut Lines<'a>,
    table: &Schema,
) -> Result<Seq<Row>, TraceFault>
    ensures { of.ReadsTable table.now lines.old lines.new result }
{
    let count = take_table_head(lines, table.name.as_slice())?;
    let mut rows = Seq::new(alloc);
    for _row in 0..count {
        let row = take_table_row(alloc, lines, table.columns.as_slice())?;
        rows.push(row)?;
    }
    Ok(rows)
}

/// Reads the rows of all tables of a script.
#[tactic(auto, using(crate::proofs::Onward::tables_more, crate::proofs::Onward::tables_fail, crate::proofs::Onward::tables_end))]
pub fn read_tables<'a>(
    alloc: Global,
    script: &Script,
    lines: &mut Lines<'a>,
) -> Result<Seq<Seq<Row>>, TraceFault>
    ensures { of.ReadsTables script.now lines.old lines.new result }
{
    let mut tables = Seq::new(alloc);
    for table in script.tables.as_slice() {
        let rows = read_table(alloc, lines, table)?;
        tables.push(rows)?;
    }
    Ok(tables)
}
