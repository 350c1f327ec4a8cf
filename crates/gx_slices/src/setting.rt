// What a SET list makes of a row.
ghost use Rattle.std.specs.Prelude.{◌≡◌, length, Ok, IsSome, IfOk};
ghost use Rattle.gx_meaning.specs.Expressions.{and_then, value_of};
ghost use Rattle.gx_meaning.specs.Kinds.{kind_of, kinds_of};
ghost use Rattle.gx_rules.specs.Changes as rule;
ghost use Rattle.gx_store.specs.Writes as legal;
ghost use Rattle.gx_slices.specs.Setting.{AreSettable, IsSettable};

use gx_eval::{EvalFault, eval};
use gx_ids::{Mem, OutOfMemory, Seq, Shared, copies};
use gx_meaning::ArithFault;
use gx_tree::{Assign, Expr, Row, Value};
use std::alloc::Global;

// The value of an expression on a row, or its fault.
fn value(alloc: Global, expr: &Expr, row: &Row) -> Mem<Result<Value, ArithFault>>
    requires { IsSome (kind_of (kinds_of row.now) expr.now) }
    ensures { IfOk result (λ value. value ≡ value_of row.now expr.now) }
{
    match eval(alloc, expr, row) {
        Ok(value) => Ok(Ok(value)),
        Err(EvalFault::Overflow) => Ok(Err(ArithFault::Overflow)),
        Err(EvalFault::DivisionByZero) => Ok(Err(ArithFault::DivisionByZero)),
        Err(EvalFault::OutOfMemory) => Err(OutOfMemory),
    }
}

// The row with the values of a SET list, all of them computed from the old row, or the first fault.
fn set_row(alloc: Global, assigns: &[Assign], old: &Row) -> Mem<Result<Row, ArithFault>>
    requires { AreSettable old.now assigns.now }
    ensures { IfOk result (λ row. row ≡ legal.set_row assigns.now old.now) }
{
    let mut values = copies(alloc, old.as_slice())?;
    match set_all(alloc, assigns, old, &mut values) {
        Ok(Ok(())) => Ok(Ok(Row::from_vec(alloc, values)?)),
        Ok(Err(fault)) => {
            drop(values);
            Ok(Err(fault))
        }
        Err(fault) => {
            drop(values);
            Err(fault)
        }
    }
}

// Sets what a SET list does, up to its first fault.
fn set_all(
    alloc: Global,
    assigns: &[Assign],
    old: &Row,
    values: &mut Vec<Value>,
) -> Mem<Result<(), ArithFault>>
    requires settable { AreSettable old.now assigns.now }
    requires whole { length values.old.items ≡ length old.now }
    ensures { IfOk result (λ went. legal.set_from old.now values.old.items assigns.now ≡ and_then went (λ _. Ok values.new.items)) }
{
    for assign in assigns {
        match value(alloc, &assign.expr, old)? {
            Ok(value) => values[usize::from(assign.col)] = value,
            Err(fault) => return Ok(Err(fault)),
        }
    }
    Ok(Ok(()))
}

// What a command makes of a row: UPDATE the row with its values, DELETE none.
pub(crate) fn new_image(
    alloc: Global,
    set: &Option<Shared<Seq<Assign>>>,
    old: &Row,
) -> Mem<Result<Option<Row>, ArithFault>>
    requires { IsSettable old.now set.now }
    ensures { IfOk result (λ image. image ≡ rule.new_image set.now old.now) }
{
    match set {
        Some(assigns) => match set_row(alloc, assigns.get().as_slice(), old)? {
            Ok(row) => Ok(Ok(Some(row))),
            Err(fault) => Ok(Err(fault)),
        },
        None => Ok(Ok(None)),
    }
}
