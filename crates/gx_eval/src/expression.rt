ghost use Rattle.std.specs.Prelude.{◌≡◌, ◌↔◌, Some, Ok, IsSome, IfOk, IsErrOf, MatchOption};
ghost use Rattle.gx_tree.specs.declared.schema.Kind.TheVariants as kind;
ghost use Rattle.gx_tree.specs.declared.value.Value.TheVariants.{Text};
ghost use Rattle.gx_eval.specs.Faults.{value_result};
ghost use Rattle.gx_meaning.specs.Kinds.{kind_of, kinds_of, value_kind};
ghost use Rattle.gx_meaning.specs.Expressions.{value_of};

use crate::arith::{arith, negated};
use crate::column::{column_value, number, text};
use crate::fault::EvalFault;
use gx_ids::Duplicate;
use gx_meaning::ArithFault;
use gx_tree::{Expr, Row, Txt, Value};
use std::alloc::Global;

/// The value of an expression on a row. Overflow and DivisionByZero come where the meaning gives them, the first fault
/// from the left; OutOfMemory only where a text can't be copied.
pub fn eval(alloc: Global, expr: &Expr, row: &Row) -> Result<Value, EvalFault>
    requires { IsSome (kind_of (kinds_of row.now) expr.now) }
    ensures value { IfOk result (λ value. value_of row.now expr.now ≡ Ok value) }
    ensures overflow { IsErrOf result EvalFault.Overflow ↔ IsErrOf (value_of row.now expr.now) ArithFault.Overflow }
    ensures division { IsErrOf result EvalFault.DivisionByZero ↔ IsErrOf (value_of row.now expr.now) ArithFault.DivisionByZero }
    ensures memory { IsErrOf result EvalFault.OutOfMemory → kind_of (kinds_of row.now) expr.now ≡ Some kind.Text }
{
    match text_of(expr, row) {
        Some(text) => Ok(Value::Text(text.copy(alloc)?)),
        None => Ok(Value::Int(eval_int(expr, row)?)),
    }
}

/// The value of a whole-number expression on a row, or its first fault from the left. It takes no memory. The recursion
/// goes as deep as the expression is nested, which the script language limits.
#[tactic(auto, using(gx_meaning::proofs::Nodes::values, gx_meaning::proofs::KindLemmas::kinds))]
pub fn eval_int(expr: &Expr, row: &Row) -> Result<i64, ArithFault>
    requires { kind_of (kinds_of row.now) expr.now ≡ Some kind.Int }
    ensures { value_of row.now expr.now ≡ value_result result }
{
    match expr {
        Expr::Lit(value) => Ok(number(value)),
        Expr::Col(column) => Ok(number(column_value(row, *column))),
        Expr::Neg(inner) => negated(eval_int(inner.get(), row)?),
        Expr::Bin(op, left, right) => {
            let a = eval_int(left.get(), row)?;
            let b = eval_int(right.get(), row)?;
            arith(*op, a, b)
        }
    }
}

// The value of a literal or a column. Every other expression is a whole number. It is borrowed, so it takes no memory.
pub fn leaf<'a>(expr: &'a Expr, row: &'a Row) -> Option<&'a Value>
    requires { IsSome (kind_of (kinds_of row.now) expr.now) }
    ensures { MatchOption result (kind_of (kinds_of row.now) expr.now ≡ Some kind.Int) (λ value. (kind_of (kinds_of row.now) expr.now ≡ Some (value_kind value.now))
        × (value_of row.now expr.now ≡ Ok value.now)) }
{
    match expr {
        Expr::Lit(value) => Some(value),
        Expr::Col(column) => Some(column_value(row, *column)),
        Expr::Neg(_) | Expr::Bin(_, _, _) => None,
    }
}

// The text of an expression, or None where it is a whole number. It is borrowed, so it takes no memory.
pub fn text_of<'a>(expr: &'a Expr, row: &'a Row) -> Option<&'a Txt>
    requires { IsSome (kind_of (kinds_of row.now) expr.now) }
    ensures { MatchOption result (kind_of (kinds_of row.now) expr.now ≡ Some kind.Int) (λ text. (kind_of (kinds_of row.now) expr.now ≡ Some kind.Text)
        × (value_of row.now expr.now ≡ Ok (Text text.now))) }
{
    match expr {
        Expr::Lit(value) => text(value),
        Expr::Col(column) => text(column_value(row, *column)),
        Expr::Neg(_) | Expr::Bin(_, _, _) => None,
    }
}
