ghost use Rattle.std.specs.Prelude.{◌≡◌, ◌≤◌, ◌<◌, ◌^◌, [], All, IfOk, OnOk, Ok, Err, List, length, vec_len, replicate, ◌+◌, ◌++◌, ◌∷◌};
ghost use Rattle.gx_tree.specs.declared.slice.Slice.TheVariants.{Insert};
ghost use Rattle.gx_tree.specs.declared.value.Value.{Value};
ghost use Rattle.gx_tree.specs.declared.row.KeyedRow.{KeyedRow as Keyed};
ghost use Rattle.gx_meaning.specs.declared.fault.ArithFault.{ArithFault};
ghost use Rattle.gx_eval.specs.Faults.{eval_fault};
ghost use Rattle.gx_meaning.specs.Constants.{IsTuple, rows_of, values_of};
ghost use Rattle.gx_meaning.specs.Plan.{bucket_pieces, dealt, put_at};

use crate::placement::place;
use crate::tuple::tuple_values;
use gx_eval::EvalFault;
use gx_ids::{Cid, Gxid, Mem, Node, Rid, Seq, Shared, Table};
use gx_meaning::Piece;
use gx_tree::{Expr, KeyedRow, Schema, Slice};
use std::alloc::Global;

// The rows of the tuples, each with those of its segment.
pub fn dealt_rows(
    alloc: Global,
    tuples: &[Seq<Expr>],
    schema: &Schema,
    gxid: Gxid,
    cid: Cid,
    n: u8,
) -> Result<Vec<Seq<KeyedRow>>, EvalFault>
    requires some { 1 ≤ n }
    requires few { n ≤ 16 }
    requires ordinals { length tuples.now < 2 ^ 32 }
    requires tuples { All (IsTuple schema.now.dist) tuples.now }
    ensures rows { IfOk result (λ buckets. (rows : List Keyed) × (rows_of gxid cid tuples.now ≡ Ok rows) × (buckets.items ≡ dealt n schema.now.dist rows)) }
    ensures fault { (fault : ArithFault) → result ≡ Err (eval_fault fault) → rows_of gxid cid tuples.now ≡ Err fault }
{
    let mut buckets = empty_buckets(alloc, n)?;
    let mut ordinal = 0;
    for tuple in tuples {
        ordinal += 1;
        let rid = Rid { gxid, cid, ordinal };
        deal(alloc, &mut buckets, tuple.as_slice(), schema, rid, n)?;
    }
    Ok(buckets)
}

fn empty_buckets(alloc: Global, n: u8) -> Mem<Vec<Seq<KeyedRow>>>
    ensures { IfOk result (λ buckets. buckets.items ≡ replicate n []) }
{
    let mut buckets = Vec::with_capacity(alloc, usize::from(n))?;
    for number in 0..n {
        buckets.push(Seq::new(alloc))?;
    }
    Ok(buckets)
}

// Puts the row of a tuple with those of its segment.
fn deal(
    alloc: Global,
    buckets: &mut Vec<Seq<KeyedRow>>,
    tuple: &[Expr],
    schema: &Schema,
    rid: Rid,
    n: u8,
) -> Result<(), EvalFault>
    requires some { 1 ≤ n }
    requires few { n ≤ 16 }
    requires tuple { IsTuple schema.now.dist tuple.now }
    requires buckets { vec_len buckets.old ≡ n }
    ensures row { OnOk result ((row : List Value) × (values_of tuple.now ≡ Ok row) × ((rows : List Keyed)
        → buckets.old.items ≡ dealt n schema.now.dist rows → buckets.new.items ≡ dealt n schema.now.dist (rows ++ record { rid = rid; row = row } ∷ []))) }
    ensures fault { (fault : ArithFault) → result ≡ Err (eval_fault fault) → values_of tuple.now ≡ Err fault }
{
    let row = tuple_values(alloc, tuple)?;
    let node = place(schema, &row, rid, n);
    put(buckets, usize::from(node.0) - 1, KeyedRow { rid, row })?;
    Ok(())
}

fn put(buckets: &mut Vec<Seq<KeyedRow>>, index: usize, row: KeyedRow) -> Mem<()>
    requires { index < vec_len buckets.old }
    ensures { OnOk result (buckets.new.items ≡ put_at buckets.old.items (index + 1) row) }
{
    buckets[index].push(row)
}

fn insert_piece(alloc: Global, number: u8, table: Table, rows: Seq<KeyedRow>) -> Mem<Piece>
    ensures { IfOk result (λ piece. piece ≡ record { node = record { 0 = number }; slice = Insert table rows }) }
{
    Ok(Piece {
        node: Node(number),
        slice: Slice::Insert(table, Shared::new(alloc, rows)?),
    })
}

// The pieces of an INSERT, from the rows of each segment.
pub fn insert_pieces(
    alloc: Global,
    blank: Vec<Piece>,
    table: Table,
    buckets: Vec<Seq<KeyedRow>>,
) -> Mem<Vec<Piece>>
    requires blank { blank.items ≡ [] }
    requires few { vec_len buckets ≤ 16 }
    ensures { IfOk result (λ pieces. pieces.items ≡ bucket_pieces table 1 buckets.items) }
{
    let mut pieces = blank;
    let mut number = 0;
    for rows in buckets {
        number += 1;
        if !rows.is_empty() {
            let piece = insert_piece(alloc, number, table, rows)?;
            pieces.push(piece)?;
        }
    }
    Ok(pieces)
}
