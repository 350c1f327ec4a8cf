// The first tuple of an INSERT whose constants fault.
ghost use Rattle.std.specs.Prelude.{◌≡◌, ◌+◌, ◌++◌, [], All, IfOk, OnOk};
ghost use Rattle.gx_meaning.specs.Expressions.{value_of};
ghost use Rattle.gx_meaning.specs.Constants.{IsConstant};
ghost use Rattle.gx_rules.specs.AtCoordinator.{fault_mark};
ghost use Rattle.gx_coord.specs.Faults.{AreConstants, HasConstants, Means, faulting, has_value, has_values as have_values};

use gx_eval::{EvalFault, eval};
use gx_ids::{Cid, Gxid, Mem, OutOfMemory, Rid, Seq};
use gx_store::Mark;
use gx_tree::{Expr, Row, Stmt, Value};
use std::alloc::Global;

fn evaluated(alloc: Global, expr: &Expr) -> Result<Value, EvalFault>
    requires { IsConstant expr.now }
    ensures { Means (value_of [] expr.now) result }
{
    let none = Row::from_vec(alloc, Vec::new(alloc))?;
    eval(alloc, expr, &none)
}

fn has_constant(alloc: Global, expr: &Expr) -> Mem<bool>
    requires { IsConstant expr.now }
    ensures { IfOk result (λ has. has ≡ has_value (value_of [] expr.now)) }
{
    match evaluated(alloc, expr) {
        Ok(_) => Ok(true),
        Err(EvalFault::Overflow) => Ok(false),
        Err(EvalFault::DivisionByZero) => Ok(false),
        Err(EvalFault::OutOfMemory) => Err(OutOfMemory),
    }
}

fn has_values(alloc: Global, tuple: &[Expr]) -> Mem<bool>
    requires { AreConstants tuple.now }
    ensures { IfOk result (λ has. has ≡ have_values tuple.now) }
{
    for expr in tuple {
        if !has_constant(alloc, expr)? {
            return Ok(false);
        }
    }
    Ok(true)
}

// Rows are numbered by 32 bits.
fn next(ordinal: u32) -> Mem<u32>
    ensures { IfOk result (λ next. next ≡ ordinal + 1) }
{
    match ordinal.checked_add(1) {
        Some(next) => Ok(next),
        None => Err(OutOfMemory),
    }
}

fn first_fault(alloc: Global, tuples: &[Seq<Expr>]) -> Mem<u32>
    requires { All AreConstants tuples.now }
    ensures { IfOk result (λ ordinal. ordinal ≡ faulting 1 tuples.now) }
{
    let mut ordinal = 1;
    for tuple in tuples {
        if !has_values(alloc, tuple.as_slice())? {
            return Ok(ordinal);
        }
        ordinal = next(ordinal)?;
    }
    Ok(ordinal)
}

// The row that was to be.
#[tactic(auto, using(crate::proofs::Faulting::same_fault))]
pub(crate) fn push_fault(
    alloc: Global,
    gxid: Gxid,
    cid: Cid,
    line: &Stmt,
    marks: &mut Vec<Mark>,
) -> Mem<()>
    requires { HasConstants line.now }
    ensures { OnOk result (marks.new.items ≡ marks.old.items ++ fault_mark gxid cid line.now) }
{
    if let Stmt::Insert(_, tuples) = line {
        let ordinal = first_fault(alloc, tuples.as_slice())?;
        marks.push(Mark::Fault {
            gxid,
            cid,
            rid: Rid { gxid, cid, ordinal },
            image: None,
        })?;
    }
    Ok(())
}
