// Rows that are computed: of a SET list, and of constants.
ghost use Rattle.std.specs.Prelude.{◌≡◌, [], Ok, IfOk, slice_set};
ghost use Rattle.gx_meaning.specs.Constants.{values_of};
ghost use Rattle.gx_meaning.specs.Expressions.{and_then};
ghost use Rattle.gx_store.specs.Writes.{set_from, set_row as set_row_of};

use crate::evaluation::value;
use gx_ids::{Mem, copies};
use gx_meaning::ArithFault;
use gx_tree::{Assign, Expr, Row, Value};
use std::alloc::Global;

fn put(values: &mut Vec<Value>, column: u8, value: Value)
    ensures { values.new.items ≡ slice_set values.old.items column value }
{
    if let Some(place) = values.get_mut(column as usize) {
        *place = value;
    }
}

/// The row of a tuple's constants, or the fault of the first that gives one.
pub fn constants(alloc: Global, tuple: &[Expr]) -> Mem<Result<Row, ArithFault>>
    ensures { IfOk result (λ outcome. outcome ≡ values_of tuple.now) }
{
    let mut values = Vec::new(alloc);
    match push_constants(alloc, tuple, &mut values) {
        Ok(went) => row_of(alloc, values, went),
        Err(fault) => {
            drop(values);
            Err(fault)
        }
    }
}

// The constants join the values, up to the first fault.
fn push_constants(
    alloc: Global,
    tuple: &[Expr],
    values: &mut Vec<Value>,
) -> Mem<Result<(), ArithFault>>
    requires { values.old.items ≡ [] }
    ensures { IfOk result (λ outcome. values_of tuple.now ≡ and_then outcome (λ _. Ok values.new.items)) }
{
    for expr in tuple {
        match value(alloc, expr, &[])? {
            Ok(value) => values.push(value)?,
            Err(fault) => return Ok(Err(fault)),
        }
    }
    Ok(Ok(()))
}

/// The row that a SET list makes of an old one, or its first fault.
pub(crate) fn set_row(
    alloc: Global,
    assigns: &[Assign],
    old: &[Value],
) -> Mem<Result<Row, ArithFault>>
    ensures { IfOk result (λ outcome. outcome ≡ set_row_of assigns.now old.now) }
{
    let mut new = copies(alloc, old)?;
    match set_all(alloc, assigns, old, &mut new) {
        Ok(went) => row_of(alloc, new, went),
        Err(fault) => {
            drop(new);
            Err(fault)
        }
    }
}

// Sets what a SET list does, up to its first fault.
fn set_all(
    alloc: Global,
    assigns: &[Assign],
    old: &[Value],
    new: &mut Vec<Value>,
) -> Mem<Result<(), ArithFault>>
    ensures { IfOk result (λ outcome. set_from old.now new.old.items assigns.now ≡ and_then outcome (λ _. Ok new.new.items)) }
{
    for assign in assigns {
        match value(alloc, &assign.expr, old)? {
            Ok(value) => put(new, assign.col, value),
            Err(fault) => return Ok(Err(fault)),
        }
    }
    Ok(Ok(()))
}

// The row of these values, if all went well.
fn row_of(
    alloc: Global,
    values: Vec<Value>,
    went: Result<(), ArithFault>,
) -> Mem<Result<Row, ArithFault>>
    ensures { IfOk result (λ made. made ≡ and_then went (λ _. Ok values.items)) }
{
    match went {
        Ok(()) => Row::from_vec(alloc, values).map(Ok),
        Err(fault) => {
            drop(values);
            Ok(Err(fault))
        }
    }
}
