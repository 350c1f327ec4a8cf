// Table lines.
ghost use Rattle.std.specs.Prelude.{◌≡◌, ◌≤◌, nat_eq, length, map, [], Ok, Err, if◌then◌else◌, IfOk};
ghost use Rattle.std.specs.List.{list_any};
ghost use Rattle.std.specs.Cmp.Lexicographic.{pointwise};
ghost use Rattle.gx_resolve.specs.Results.{Says};
ghost use Rattle.gx_resolve.specs.Naming.{is_among};
ghost use Rattle.gx_resolve.specs.Resolving as of;
ghost use Rattle.gx_meaning.specs.Statements.{IsSchema};

use crate::fault::{NameFault, ResolveError};
use crate::parts::column_at;
use gx_ids::{Duplicate, Mem, Seq};
use gx_lines::{ColumnSyn, DistSyn, KindSyn, TableSyn};
use gx_tree::{Column, Dist, Kind, Schema, Txt};
use std::alloc::Global;

fn kind_as(kind: KindSyn) -> Kind
    ensures { result ≡ of.kind_as kind }
{
    match kind {
        KindSyn::Bigint => Kind::Int,
        KindSyn::Text => Kind::Text,
    }
}

fn columns_as(alloc: Global, columns: &[ColumnSyn]) -> Mem<Seq<Column>>
    ensures { IfOk result (λ all. all ≡ map of.column_as columns.now) }
{
    let mut all = Seq::new(alloc);
    for column in columns {
        let name = column.name.copy(alloc)?;
        let kind = kind_as(column.kind);
        all.push(Column { name, kind })?;
    }
    Ok(all)
}

fn names_one(before: &[ColumnSyn], name: &Txt) -> bool
    ensures { result ≡ list_any (λ column. pointwise nat_eq (of.column_name column) name.now) before.now }
{
    before.iter().any(|column| column.name == *name)
}

#[tactic(auto, using(crate::proofs::Names::lists))]
fn is_named(before: &[ColumnSyn], name: &Txt) -> bool
    ensures { result ≡ is_among (map of.column_name before.now) name.now }
{
    names_one(before, name)
}

// Whether no column is named twice.
fn check_columns(columns: &[ColumnSyn]) -> Result<(), NameFault>
    ensures { result ≡ of.columns_new [] columns.now }
{
    for (place, column) in columns.iter().enumerate() {
        if is_named(&columns[..place], &column.name) {
            return Err(NameFault::Syntax);
        }
    }
    Ok(())
}

fn dist_as(columns: &[Column], dist: &DistSyn) -> Result<Dist, NameFault>
    requires { length columns.now ≤ 256 }
    ensures { result ≡ of.dist_as columns.now dist.now }
{
    match dist {
        DistSyn::Randomly => Ok(Dist::Randomly),
        DistSyn::By(name) => {
            let (place, _) = column_at(columns, name)?;
            Ok(Dist::By(place))
        }
    }
}

fn new_table(alloc: Global, table: &TableSyn) -> Result<Schema, ResolveError>
    requires { length table.now.columns ≤ 256 }
    ensures { Says result (of.new_table table.now) }
{
    check_columns(table.columns.as_slice())?;
    let columns = columns_as(alloc, table.columns.as_slice())?;
    let dist = dist_as(columns.as_slice(), &table.dist)?;
    let name = table.name.copy(alloc)?;
    Ok(Schema {
        name,
        columns,
        dist,
    })
}

fn declared(alloc: Global, known: bool, table: &TableSyn) -> Result<Schema, ResolveError>
    requires { length table.now.columns ≤ 256 }
    ensures { Says result (of.table_from known table.now) }
{
    if known {
        Err(ResolveError::Fault(NameFault::TableExists))
    } else {
        new_table(alloc, table)
    }
}

/// The table that a line declares, or what is wrong with it, given whether a table of its name is known.
pub fn resolve_table(alloc: Global, known: bool, table: &TableSyn) -> Result<Schema, ResolveError>
    requires { length table.now.columns ≤ 256 }
    ensures answer { Says result (of.table_from known table.now) }
    ensures rules { IfOk result (λ schema. 1 ≤ length table.now.columns → IsSchema schema) }
{
    declared(alloc, known, table)
}
