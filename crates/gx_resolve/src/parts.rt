// The parts of statements over the columns of a table: columns, values, conditions, tuples, assignments.
ghost use Rattle.std.specs.Prelude.{◌≡◌, ◌≤◌, length, List, [], Result};
ghost use Rattle.gx_tree.specs.declared.schema.Column.{Column as ColumnOf};
ghost use Rattle.gx_resolve.specs.declared.fault.NameFault.{NameFault as Fault};
ghost use Rattle.gx_resolve.specs.Results.{Says, each};
ghost use Rattle.gx_resolve.specs.Kinding as of;
ghost use Rattle.gx_resolve.specs.Typing.{number_typed};

use crate::fault::{NameFault, ResolveError};
use crate::node::number_value;
use crate::{Typed, find_column, type_expression};
use gx_grammar::Syn;
use gx_ids::Seq;
use gx_lines::{AssignSyn, TupleSyn};
use gx_tree::{Assign, Column, Cond, Expr, Kind, Txt, Value};
use std::alloc::Global;

/// What is something else over the columns of its table than as it is written.
pub trait Written: Sized {
    type Out: Drop;

    ghost means: { List ColumnOf → Self → Result Self.Out Fault };

    /// What it is, or what is wrong with it.
    fn resolve(&self, alloc: Global, columns: &[Column]) -> Result<Self::Out, ResolveError>
        requires { length columns.now ≤ 256 }
        ensures { Says result (means columns.now self.now) };
}

/// What each of them is, in order.
pub fn resolve_each<T: Written>(
    alloc: Global,
    columns: &[Column],
    items: &[T],
) -> Result<Seq<T::Out>, ResolveError>
    requires { length columns.now ≤ 256 }
    ensures { Says result (each (T.means columns.now) items.now) }
{
    let mut all = Seq::new(alloc);
    for item in items {
        all.push(item.resolve(alloc, columns)?)?;
    }
    Ok(all)
}

/// The place and the kind of a column.
pub fn column_at(columns: &[Column], name: &Txt) -> Result<(u8, Kind), NameFault>
    requires { length columns.now ≤ 256 }
    ensures { result ≡ of.column_at columns.now name.now }
{
    find_column(columns, name).ok_or(NameFault::UnknownColumn)
}

// A value of a kind.
fn value_as(kind: Kind, typed: Typed) -> Result<Expr, NameFault>
    ensures { result ≡ of.value_as kind typed }
{
    match typed {
        Typed::Value(found, expr) => {
            if found == kind {
                Ok(expr)
            } else {
                drop(expr);
                Err(NameFault::TypeMismatch)
            }
        }
        other => {
            drop(other);
            Err(NameFault::TypeMismatch)
        }
    }
}

fn cond_as(typed: Typed) -> Result<Cond, NameFault>
    ensures { result ≡ of.cond_as typed }
{
    match typed {
        Typed::Cond(cond) => Ok(cond),
        other => {
            drop(other);
            Err(NameFault::TypeMismatch)
        }
    }
}

/// The condition of WHERE, where one stands.
pub fn where_as(
    alloc: Global,
    columns: &[Column],
    cond: &Option<Syn>,
) -> Result<Option<Cond>, ResolveError>
    requires { length columns.now ≤ 256 }
    ensures { Says result (of.where_as columns.now cond.now) }
{
    match cond {
        None => Ok(None),
        Some(syn) => Ok(Some(cond_as(type_expression(alloc, columns, syn)?)?)),
    }
}

// A number of a kind.
fn number_as(kind: Kind, negative: bool, size: Option<u64>) -> Result<Expr, NameFault>
    ensures { result ≡ of.value_as kind (number_typed negative size) }
{
    match (kind, number_value(negative, size)) {
        (Kind::Int, Some(value)) => Ok(Expr::Lit(Value::Int(value))),
        _ => Err(NameFault::TypeMismatch),
    }
}

// An expression that stands in VALUES.
fn expression_as(alloc: Global, kind: Kind, value: &Syn) -> Result<Expr, ResolveError>
    ensures { Says result (of.constant_as kind value.now) }
{
    Ok(value_as(kind, type_expression(alloc, &[], value)?)?)
}

// A value that stands in VALUES.
fn constant_as(alloc: Global, kind: Kind, value: &Syn) -> Result<Expr, ResolveError>
    ensures { Says result (of.constant_as kind value.now) }
{
    match value {
        Syn::Number(negative, size) => Ok(number_as(kind, *negative, *size)?),
        _ => expression_as(alloc, kind, value),
    }
}

// As many values as there are columns.
fn constants(alloc: Global, columns: &[Column], values: &[Syn]) -> Result<Seq<Expr>, ResolveError>
    requires { length columns.now ≡ length values.now }
    ensures { Says result (of.values_as columns.now values.now) }
{
    let mut exprs = Seq::new(alloc);
    for (place, value) in values.iter().enumerate() {
        exprs.push(constant_as(alloc, columns[place].kind, value)?)?;
    }
    Ok(exprs)
}

#[tactic(auto, using(crate::proofs::Each::counts))]
fn values_as(alloc: Global, columns: &[Column], values: &[Syn]) -> Result<Seq<Expr>, ResolveError>
    ensures { Says result (of.values_as columns.now values.now) }
{
    if columns.len() == values.len() {
        constants(alloc, columns, values)
    } else {
        Err(ResolveError::Fault(NameFault::TypeMismatch))
    }
}

impl Written for TupleSyn {
    ghost use Rattle.gx_resolve.specs.Kinding.{tuple_as};

    type Out = Seq<Expr>;

    ghost means = { tuple_as };

    fn resolve(&self, alloc: Global, columns: &[Column]) -> Result<Seq<Expr>, ResolveError> {
        values_as(alloc, columns, self.values.as_slice())
    }
}

impl Written for AssignSyn {
    ghost use Rattle.gx_resolve.specs.Kinding.{assign_as};

    type Out = Assign;

    ghost means = { assign_as };

    fn resolve(&self, alloc: Global, columns: &[Column]) -> Result<Assign, ResolveError> {
        let (col, kind) = column_at(columns, &self.column)?;
        let expr = value_as(kind, type_expression(alloc, columns, &self.value)?)?;
        Ok(Assign { col, expr })
    }
}
