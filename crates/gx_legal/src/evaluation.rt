// The meaning of expressions and conditions on any row, of whatever kinds its values are.
ghost use Rattle.std.specs.Prelude.{◌≡◌, IfOk, Ok, Err};
ghost use Rattle.gx_tree.specs.Value.{value_order};
ghost use Rattle.gx_meaning.specs.Constants.{values_of};
ghost use Rattle.gx_meaning.specs.Expressions.{and_then, arithmetic, column_of, compared as compares, number_in, order_of, truth_of, value_of};

use crate::arithmetic::{computed, negated};
use gx_ids::{Duplicate, Mem};
use gx_meaning::ArithFault;
use gx_tree::{ArithOp, CmpOp, Cond, Expr, Value};
use std::alloc::Global;
use std::cmp::Ordering;

/// The value of an expression on a row, or its first fault from the left.
#[tactic(auto, using(gx_meaning::proofs::Nodes::values))]
pub fn value(alloc: Global, expr: &Expr, row: &[Value]) -> Mem<Result<Value, ArithFault>>
    ensures { IfOk result (λ outcome. outcome ≡ value_of row.now expr.now) }
{
    match expr {
        Expr::Lit(value) => value.copy(alloc).map(Ok),
        Expr::Col(column) => column_value(alloc, row, *column).map(Ok),
        Expr::Neg(inner) => match value(alloc, inner.get(), row) {
            Ok(Ok(number)) => Ok(negated(number_of(number))),
            other => other,
        },
        Expr::Bin(op, left, right) => match value(alloc, left.get(), row) {
            Ok(Ok(left)) => Ok(computed_with(
                *op,
                number_of(left),
                value(alloc, right.get(), row)?,
            )),
            other => other,
        },
    }
}

fn column_value(alloc: Global, row: &[Value], column: u8) -> Mem<Value>
    ensures { IfOk result (λ value. value ≡ column_of row.now column) }
{
    match row.get(column as usize) {
        Some(value) => value.copy(alloc),
        None => Ok(Value::Int(0)),
    }
}

fn number_of(value: Value) -> i64
    ensures { result ≡ number_in value }
{
    match value {
        Value::Int(number) => number,
        Value::Text(_text) => 0,
    }
}

/// The truth of a condition on a row, or its first fault from the left.
#[tactic(auto, using(gx_meaning::proofs::Nodes::truths))]
pub fn truth(alloc: Global, cond: &Cond, row: &[Value]) -> Mem<Result<bool, ArithFault>>
    ensures { IfOk result (λ outcome. outcome ≡ truth_of row.now cond.now) }
{
    match cond {
        Cond::Cmp(op, left, right) => Ok(compared(*op, order(alloc, left, right, row)?)),
        Cond::And(left, right) => match truth(alloc, left.get(), row) {
            Ok(Ok(true)) => truth(alloc, right.get(), row),
            other => other,
        },
        Cond::Or(left, right) => match truth(alloc, left.get(), row) {
            Ok(Ok(false)) => truth(alloc, right.get(), row),
            other => other,
        },
        Cond::Not(inner) => match truth(alloc, inner.get(), row) {
            Ok(Ok(truth)) => Ok(Ok(!truth)),
            other => other,
        },
    }
}

fn order(
    alloc: Global,
    left: &Expr,
    right: &Expr,
    row: &[Value],
) -> Mem<Result<Ordering, ArithFault>>
    ensures { IfOk result (λ outcome. outcome ≡ order_of row.now left.now right.now) }
{
    match value(alloc, left, row)? {
        Ok(left) => Ok(order_with(left, value(alloc, right, row)?)),
        Err(fault) => Ok(Err(fault)),
    }
}

fn order_with(left: Value, right: Result<Value, ArithFault>) -> Result<Ordering, ArithFault>
    ensures { result ≡ and_then right (λ b. Ok (value_order left b)) }
{
    match right {
        Ok(right) => {
            let order = left.cmp(&right);
            drop(left);
            drop(right);
            Ok(order)
        }
        Err(fault) => {
            drop(left);
            Err(fault)
        }
    }
}

fn compared(op: CmpOp, order: Result<Ordering, ArithFault>) -> Result<bool, ArithFault>
    ensures { result ≡ and_then order (λ order. Ok (compares op order)) }
{
    Ok(meets(op, order?))
}

fn meets(op: CmpOp, order: Ordering) -> bool
    ensures { result ≡ compares op order }
{
    match op {
        CmpOp::Eq => order.is_eq(),
        CmpOp::Ne => order.is_ne(),
        CmpOp::Lt => order.is_lt(),
        CmpOp::Le => order.is_le(),
        CmpOp::Gt => order.is_gt(),
        CmpOp::Ge => order.is_ge(),
    }
}

fn computed_with(
    op: ArithOp,
    left: i64,
    right: Result<Value, ArithFault>,
) -> Result<Value, ArithFault>
    ensures { result ≡ and_then right (λ b. arithmetic op left (number_in b)) }
{
    computed(op, left, number_of(right?))
}
