ghost use Rattle.std.specs.Prelude.{◌≡◌, ◌≢◌, ◌↔◌, Ok, Err, IfOk, IsErrOf, IsTrue};
ghost use Rattle.gx_meaning.specs.Kinds.{IsTyped, are_comparable, kind_of, kinds_of};
ghost use Rattle.gx_meaning.specs.Expressions.{compared, order_of, truth_of};

use crate::expression::{eval_int, leaf};
use crate::fault::EvalFault;
use gx_meaning::ArithFault;
use gx_tree::{CmpOp, Cond, Expr, Row};
use std::alloc::Global;
use std::cmp::Ordering;

/// Whether a condition is true on a row. Overflow and DivisionByZero come where the meaning gives them, the first fault
/// from the left. It takes no memory, so it never answers OutOfMemory.
pub fn holds(_alloc: Global, cond: &Cond, row: &Row) -> Result<bool, EvalFault>
    requires { IsTyped (kinds_of row.now) cond.now }
    ensures truth { IfOk result (λ truth. truth_of row.now cond.now ≡ Ok truth) }
    ensures overflow { IsErrOf result EvalFault.Overflow ↔ IsErrOf (truth_of row.now cond.now) ArithFault.Overflow }
    ensures division { IsErrOf result EvalFault.DivisionByZero ↔ IsErrOf (truth_of row.now cond.now) ArithFault.DivisionByZero }
    ensures memory { result ≢ Err EvalFault.OutOfMemory }
{
    Ok(decide(cond, row)?)
}

/// Whether a condition is true on a row, or its first fault from the left. It takes no memory. The recursion goes as deep
/// as the condition is nested, which the script language limits.
#[tactic(auto, using(gx_meaning::proofs::Nodes::truths, gx_meaning::proofs::Nodes::typings))]
pub fn decide(cond: &Cond, row: &Row) -> Result<bool, ArithFault>
    requires { IsTyped (kinds_of row.now) cond.now }
    ensures { result ≡ truth_of row.now cond.now }
{
    match cond {
        Cond::Cmp(op, left, right) => Ok(meets(*op, order(left, right, row)?)),
        Cond::And(left, right) => Ok(decide(left.get(), row)? && decide(right.get(), row)?),
        Cond::Or(left, right) => Ok(decide(left.get(), row)? || decide(right.get(), row)?),
        Cond::Not(inner) => Ok(!decide(inner.get(), row)?),
    }
}

// The order of the two sides of a comparison: numbers by value, texts by their bytes.
fn order(left: &Expr, right: &Expr, row: &Row) -> Result<Ordering, ArithFault>
    requires { IsTrue (are_comparable (kind_of (kinds_of row.now) left.now) (kind_of (kinds_of row.now) right.now)) }
    ensures { result ≡ order_of row.now left.now right.now }
{
    match (leaf(left, row), leaf(right, row)) {
        (Some(a), Some(b)) => Ok(a.cmp(b)),
        _ => {
            let a = eval_int(left, row)?;
            let b = eval_int(right, row)?;
            Ok(a.cmp(&b))
        }
    }
}

fn meets(op: CmpOp, order: Ordering) -> bool
    ensures { result ≡ compared op order }
{
    match op {
        CmpOp::Eq => order.is_eq(),
        CmpOp::Ne => order.is_ne(),
        CmpOp::Lt => order.is_lt(),
        CmpOp::Le => order.is_le(),
        CmpOp::Gt => order.is_gt(),
        CmpOp::Ge => order.is_ge(),
    }
}
