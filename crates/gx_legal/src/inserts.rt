// The rows that an INSERT writes.
ghost use Rattle.std.specs.Prelude.{◌≡◌, ◌≤◌, ◌+◌, ◌-◌, ◌%◌, IfOk, slice_get};
ghost use Rattle.std.specs.Option.{option_copied};
ghost use Rattle.gx_meaning.specs.Place.{key_place as place_of_key, row_place};
ghost use Rattle.gx_store.specs.Writes.{dist_of as distribution};
ghost use Rattle.gx_legal.specs.Inserted.{dist_in as distribution_in, is_inserted as was_inserted, is_own as is_of, is_row_of as may_be_row, is_tuple_row as may_be_tuple};

use crate::command::{Command, RowAt};
use crate::images::is_image;
use crate::marks::is_written;
use crate::setting::constants;
use gx_ids::{Mem, Node, Rid, Seq, Table};
use gx_meaning::ArithFault;
use gx_plan::place_value;
use gx_script::Script;
use gx_store::Mark;
use gx_tree::{Dist, Expr, Row, Schema, Value};
use std::alloc::Global;

/// Whether the image is the row of the tuple that the row's identity names, at its place, and for the first time.
pub(crate) fn is_inserted(
    alloc: Global,
    script: &Script,
    marks: &[Mark],
    command: Command,
    table: Table,
    tuples: &[Seq<Expr>],
    row: RowAt,
    image: &Option<Row>,
) -> Mem<bool>
    requires some { 1 ≤ script.now.segments }
    requires few { script.now.segments ≤ 16 }
    ensures { IfOk result (λ holds. holds ≡ was_inserted script.now marks.now command.gxid command.cid table tuples.now row.node row.rid image.now) }
{
    if !is_own(command, row.rid) || is_written(marks, row.rid) {
        return Ok(false);
    }
    let dist = dist_of(script.tables.as_slice(), table);
    is_tuple_row(
        alloc,
        script.segments,
        dist,
        row,
        image,
        tuple_at(tuples, row.rid),
    )
}

pub(crate) fn is_own(command: Command, rid: Rid) -> bool
    ensures { result ≡ is_of command.gxid command.cid rid }
{
    rid.gxid == command.gxid && rid.cid == command.cid && 1 <= rid.ordinal
}

pub(crate) fn tuple_at(tuples: &[Seq<Expr>], rid: Rid) -> Option<&Seq<Expr>>
    ensures { option_copied result ≡ slice_get tuples.now (rid.ordinal - 1) }
{
    tuples.get(rid.ordinal.saturating_sub(1) as usize)
}

fn is_tuple_row(
    alloc: Global,
    segments: u8,
    dist: Dist,
    row: RowAt,
    image: &Option<Row>,
    tuple: Option<&Seq<Expr>>,
) -> Mem<bool>
    requires some { 1 ≤ segments }
    requires few { segments ≤ 16 }
    ensures { IfOk result (λ holds. holds ≡ may_be_tuple segments dist row.node row.rid image.now (option_copied tuple.entry)) }
{
    match tuple {
        None => Ok(false),
        Some(tuple) => Ok(is_row_of(
            segments,
            dist,
            row,
            image,
            constants(alloc, tuple.as_slice())?,
        )),
    }
}

fn is_row_of(
    segments: u8,
    dist: Dist,
    row: RowAt,
    image: &Option<Row>,
    values: Result<Row, ArithFault>,
) -> bool
    requires some { 1 ≤ segments }
    requires few { segments ≤ 16 }
    ensures { result ≡ may_be_row segments dist row.node row.rid image.now values }
{
    match values {
        Ok(values) => row.node == place_of(segments, dist, &values, row.rid)
            && is_image(image, &values),
        Err(_) => false,
    }
}

// How the rows of a table are distributed.
fn dist_of(tables: &[Schema], table: Table) -> Dist
    ensures { result ≡ distribution tables.now table.0 }
{
    dist_in(schema_at(tables, table))
}

fn schema_at(tables: &[Schema], table: Table) -> Option<&Schema>
    ensures { option_copied result ≡ slice_get tables.now table.0 }
{
    tables.get(table.0 as usize)
}

fn dist_in(schema: Option<&Schema>) -> Dist
    ensures { result ≡ distribution_in (option_copied schema.entry) }
{
    match schema {
        Some(schema) => schema.dist,
        None => Dist::Randomly,
    }
}

// The segment of a row among so many; a row that lacks its key stands at the first.
fn place_of(segments: u8, dist: Dist, row: &Row, rid: Rid) -> Node
    requires some { 1 ≤ segments }
    requires few { segments ≤ 16 }
    ensures { result.0 ≡ row_place segments dist row.now rid }
{
    match dist {
        Dist::By(column) => key_place(segments, row.as_slice().get(column as usize)),
        Dist::Randomly => Node(1 + rid_remainder(rid, segments)),
    }
}

fn key_place(segments: u8, key: Option<&Value>) -> Node
    requires some { 1 ≤ segments }
    requires few { segments ≤ 16 }
    ensures { result.0 ≡ place_of_key segments (option_copied key.entry) }
{
    match key {
        None => Node(1),
        Some(key) => place_value(key, segments),
    }
}

// A gxid may be the greatest u64, so the sum is taken in 128 bits.
fn rid_remainder(rid: Rid, segments: u8) -> u8
    requires { 1 ≤ segments }
    ensures value { result ≡ (rid.gxid.0 + rid.ordinal) % segments }
    ensures below { result + 1 ≤ segments }
{
    let sum = u128::from(rid.gxid.0) + u128::from(rid.ordinal);
    (sum % u128::from(segments)) as u8
}
