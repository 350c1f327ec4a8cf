ghost use Rattle.std.specs.Prelude.{◌≡◌, ◌≢◌, pos, neg_ℤ, int_div, int_rem};
ghost use Rattle.gx_meaning.specs.Expressions.{arithmetic, in_range};
ghost use Rattle.gx_eval.specs.Faults.{value_result};

use gx_meaning::ArithFault;
use gx_tree::ArithOp;

// An operation on two numbers.
pub fn arith(op: ArithOp, a: i64, b: i64) -> Result<i64, ArithFault>
    ensures { value_result result ≡ arithmetic op a b }
{
    match op {
        ArithOp::Add => a.checked_add(b).ok_or(ArithFault::Overflow),
        ArithOp::Sub => a.checked_sub(b).ok_or(ArithFault::Overflow),
        ArithOp::Mul => a.checked_mul(b).ok_or(ArithFault::Overflow),
        ArithOp::Div => quotient(a, b),
        ArithOp::Rem => remainder(a, b),
    }
}

// The number with the other sign.
pub fn negated(a: i64) -> Result<i64, ArithFault>
    ensures { value_result result ≡ in_range (neg_ℤ a) }
{
    a.checked_neg().ok_or(ArithFault::Overflow)
}

fn quotient(a: i64, b: i64) -> Result<i64, ArithFault>
    ensures { value_result result ≡ arithmetic ArithOp.Div a b }
{
    if b == 0 {
        return Err(ArithFault::DivisionByZero);
    }
    a.checked_div(b).ok_or(ArithFault::Overflow)
}

// The remainder by -1 is 0, for the least number too, whose quotient by -1 overflows.
fn remainder(a: i64, b: i64) -> Result<i64, ArithFault>
    ensures { value_result result ≡ arithmetic ArithOp.Rem a b }
{
    if b == 0 {
        return Err(ArithFault::DivisionByZero);
    }
    Ok(if b == -1 { 0 } else { a % b })
}
