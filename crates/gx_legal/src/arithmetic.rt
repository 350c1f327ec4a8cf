// Operations on numbers, with their faults.
ghost use Rattle.std.specs.Prelude.{◌≡◌, neg_ℤ};
ghost use Rattle.gx_meaning.specs.Expressions.{arithmetic, in_range};
ghost use Rattle.gx_legal.specs.Numbers.{as_value};

use gx_meaning::ArithFault;
use gx_tree::{ArithOp, Value};

pub(crate) fn computed(op: ArithOp, a: i64, b: i64) -> Result<Value, ArithFault>
    ensures { result ≡ arithmetic op a b }
{
    match op {
        ArithOp::Add => value(a.checked_add(b).ok_or(ArithFault::Overflow)),
        ArithOp::Sub => value(a.checked_sub(b).ok_or(ArithFault::Overflow)),
        ArithOp::Mul => value(a.checked_mul(b).ok_or(ArithFault::Overflow)),
        ArithOp::Div => quotient(a, b),
        ArithOp::Rem => remainder(a, b),
    }
}

pub(crate) fn negated(a: i64) -> Result<Value, ArithFault>
    ensures { result ≡ in_range (neg_ℤ a) }
{
    value(a.checked_neg().ok_or(ArithFault::Overflow))
}

fn value(number: Result<i64, ArithFault>) -> Result<Value, ArithFault>
    ensures { result ≡ as_value number }
{
    Ok(Value::Int(number?))
}

fn quotient(a: i64, b: i64) -> Result<Value, ArithFault>
    ensures { result ≡ arithmetic ArithOp.Div a b }
{
    if b == 0 {
        return Err(ArithFault::DivisionByZero);
    }
    value(a.checked_div(b).ok_or(ArithFault::Overflow))
}

// The remainder by -1 is 0, for the least number too, whose quotient by -1 overflows.
fn remainder(a: i64, b: i64) -> Result<Value, ArithFault>
    ensures { result ≡ arithmetic ArithOp.Rem a b }
{
    if b == 0 {
        return Err(ArithFault::DivisionByZero);
    }
    Ok(Value::Int(if b == -1 { 0 } else { a % b }))
}
