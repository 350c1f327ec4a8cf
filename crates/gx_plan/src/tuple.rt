ghost use Rattle.std.specs.Prelude.{◌≡◌, [], All, IfOk, Ok, Err};
ghost use Rattle.gx_meaning.specs.declared.fault.ArithFault.{ArithFault};
ghost use Rattle.gx_eval.specs.Faults.{eval_fault};
ghost use Rattle.gx_meaning.specs.Expressions.{value_of};
ghost use Rattle.gx_meaning.specs.Constants.{IsConstant, values_of};

use gx_eval::{EvalFault, eval};
use gx_ids::{Duplicate, Seq};
use gx_tree::{Expr, Row, Value};
use std::alloc::Global;

// The row of a tuple's values.
pub fn tuple_values(alloc: Global, tuple: &[Expr]) -> Result<Row, EvalFault>
    requires { All IsConstant tuple.now }
    ensures values { IfOk result (λ row. values_of tuple.now ≡ Ok row) }
    ensures fault { (fault : ArithFault) → result ≡ Err (eval_fault fault) → values_of tuple.now ≡ Err fault }
{
    let mut values = Seq::new(alloc);
    for expr in tuple {
        values.push(constant(alloc, expr)?)?;
    }
    Ok(Row::from_vec(alloc, values.into_vec())?)
}

fn constant(alloc: Global, expr: &Expr) -> Result<Value, EvalFault>
    requires { IsConstant expr.now }
    ensures value { IfOk result (λ value. value_of [] expr.now ≡ Ok value) }
    ensures fault { (fault : ArithFault) → result ≡ Err (eval_fault fault) → value_of [] expr.now ≡ Err fault }
{
    match expr {
        Expr::Lit(Value::Int(number)) => Ok(Value::Int(*number)),
        Expr::Lit(value) => Ok(value.copy(alloc)?),
        _ => {
            let none = Row::from_vec(alloc, Vec::new(alloc))?;
            eval(alloc, expr, &none)
        }
    }
}
