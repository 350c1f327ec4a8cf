// What one node of an expression is, by what its parts are.
ghost use Rattle.std.specs.Prelude.{◌≡◌, IfOk, IfErr};
ghost use Rattle.gx_tree.specs.declared.schema.Kind.TheVariants as kind;
ghost use Rattle.gx_tree.specs.declared.value.Value.TheVariants as value;
ghost use Rattle.gx_tree.specs.declared.expr.Expr.TheVariants as expr;
ghost use Rattle.gx_tree.specs.declared.cond.Cond.TheVariants as cond;
ghost use Rattle.gx_resolve.specs.declared.typed.Typed.TheVariants as typed;
ghost use Rattle.gx_resolve.specs.Typing as of;

use crate::typed::Typed;
use gx_grammar::Op;
use gx_ids::{Boxed, Duplicate, Mem};
use gx_tree::{ArithOp, CmpOp, Cond, Expr, Kind, Txt, Value};
use std::alloc::Global;

/// The value of a number, where it is of 64 bits with its sign.
pub fn number_value(negative: bool, size: Option<u64>) -> Option<i64>
    ensures { of.value_typed result ≡ of.number_typed negative size }
{
    if negative {
        negative_value(size?)
    } else {
        positive_value(size?)
    }
}

fn positive_value(size: u64) -> Option<i64>
    ensures { of.value_typed result ≡ of.positive_typed size }
{
    if size <= 9223372036854775807 {
        Some(size as i64)
    } else {
        None
    }
}

fn negative_value(size: u64) -> Option<i64>
    ensures { of.value_typed result ≡ of.negative_typed size }
{
    if size <= 9223372036854775807 {
        Some(0 - size as i64)
    } else if size == 9223372036854775808 {
        Some(i64::MIN)
    } else {
        None
    }
}

pub fn number(negative: bool, size: Option<u64>) -> Typed
    ensures { result ≡ of.number_typed negative size }
{
    match number_value(negative, size) {
        Some(value) => Typed::Value(Kind::Int, Expr::Lit(Value::Int(value))),
        None => Typed::Mismatch,
    }
}

pub fn text(alloc: Global, content: &Txt) -> Mem<Typed>
    ensures { IfOk result (λ t. t ≡ typed.Value kind.Text (expr.Lit (value.Text content.now))) }
{
    let content = content.copy(alloc)?;
    Ok(Typed::Value(Kind::Text, Expr::Lit(Value::Text(content))))
}

pub fn column(found: Option<(u8, Kind)>) -> Typed
    ensures { result ≡ of.column_typed found }
{
    match found {
        None => Typed::Unknown,
        Some((place, kind)) => Typed::Value(kind, Expr::Col(place)),
    }
}

pub fn negation(alloc: Global, inner: Typed) -> Mem<Typed>
    ensures { IfOk result (λ t. t ≡ of.neg_typed inner) }
{
    match inner {
        Typed::Value(Kind::Int, expr) => {
            Ok(Typed::Value(Kind::Int, Expr::Neg(Boxed::new(alloc, expr)?)))
        }
        other => Ok(beside(other)),
    }
}

pub fn opposite(alloc: Global, inner: Typed) -> Mem<Typed>
    ensures { IfOk result (λ t. t ≡ of.not_typed inner) }
{
    match inner {
        Typed::Cond(cond) => Ok(Typed::Cond(Cond::Not(Boxed::new(alloc, cond)?))),
        other => Ok(beside(other)),
    }
}

// What a part is beside one that no operator takes there.
fn beside(other: Typed) -> Typed
    ensures { result ≡ of.beside other }
{
    match other {
        Typed::Unknown => Typed::Unknown,
        other => {
            drop(other);
            Typed::Mismatch
        }
    }
}

// What two parts are that no operator takes together: an unknown column comes before whatever stands to its right.
fn wrong(left: Typed, right: Typed) -> Typed
    ensures { result ≡ of.wrong left right }
{
    match left {
        Typed::Unknown => {
            drop(right);
            Typed::Unknown
        }
        other => {
            drop(other);
            beside(right)
        }
    }
}

fn arithmetic(alloc: Global, op: ArithOp, left: Typed, right: Typed) -> Mem<Typed>
    ensures { IfOk result (λ t. t ≡ of.arith_typed op left right) }
{
    match left {
        Typed::Value(Kind::Int, a) => number_beside(alloc, op, a, right),
        other => Ok(wrong(other, right)),
    }
}

// Arithmetic on a number and what stands to its right.
fn number_beside(alloc: Global, op: ArithOp, a: Expr, right: Typed) -> Mem<Typed>
    ensures { IfOk result (λ t. t ≡ of.arith_typed op (typed.Value kind.Int a) right) }
{
    match right {
        Typed::Value(Kind::Int, b) => Ok(Typed::Value(Kind::Int, binary(alloc, op, a, b)?)),
        other => {
            drop(a);
            Ok(beside(other))
        }
    }
}

fn boxes<T: Drop>(alloc: Global, left: T, right: T) -> Mem<(Boxed<T>, Boxed<T>)>
    ensures { IfOk result (λ both. (both.0 ≡ left) × (both.1 ≡ right)) }
{
    match Boxed::new(alloc, left) {
        Ok(left) => {
            let right = Boxed::new(alloc, right)?;
            Ok((left, right))
        }
        Err(out) => {
            drop(right);
            Err(out)
        }
    }
}

fn binary(alloc: Global, op: ArithOp, left: Expr, right: Expr) -> Mem<Expr>
    ensures { IfOk result (λ e. e ≡ expr.Bin op left right) }
{
    let (left, right) = boxes(alloc, left, right)?;
    Ok(Expr::Bin(op, left, right))
}

fn number_compared(op: CmpOp, a: Expr, right: Typed) -> Typed
    ensures { result ≡ of.number_compared op a right }
{
    match right {
        Typed::Value(Kind::Int, b) => Typed::Cond(Cond::Cmp(op, a, b)),
        other => {
            drop(a);
            beside(other)
        }
    }
}

fn text_compared(op: CmpOp, a: Expr, right: Typed) -> Typed
    ensures { result ≡ of.text_compared op a right }
{
    match right {
        Typed::Value(Kind::Text, b) => Typed::Cond(Cond::Cmp(op, a, b)),
        other => {
            drop(a);
            beside(other)
        }
    }
}

fn comparison(op: CmpOp, left: Typed, right: Typed) -> Typed
    ensures { result ≡ of.cmp_typed op left right }
{
    match left {
        Typed::Value(Kind::Int, a) => number_compared(op, a, right),
        Typed::Value(Kind::Text, a) => text_compared(op, a, right),
        other => wrong(other, right),
    }
}

// Two conditions, or what stands for both where one of them is none.
fn conditions(left: Typed, right: Typed) -> Result<(Cond, Cond), Typed>
    ensures both { IfOk result (λ both. (left ≡ typed.Cond both.0) × (right ≡ typed.Cond both.1)) }
    ensures wrong { IfErr result (λ t. (of.and_typed left right ≡ t) × (of.or_typed left right ≡ t)) }
{
    match left {
        Typed::Cond(a) => condition_beside(a, right),
        other => Err(wrong(other, right)),
    }
}

fn condition_beside(a: Cond, right: Typed) -> Result<(Cond, Cond), Typed>
    ensures both { IfOk result (λ both. (a ≡ both.0) × (right ≡ typed.Cond both.1)) }
    ensures wrong { IfErr result (λ t. (of.and_typed (typed.Cond a) right ≡ t) × (of.or_typed (typed.Cond a) right ≡ t)) }
{
    match right {
        Typed::Cond(b) => Ok((a, b)),
        other => {
            drop(a);
            Err(beside(other))
        }
    }
}

fn and(alloc: Global, left: Cond, right: Cond) -> Mem<Cond>
    ensures { IfOk result (λ c. c ≡ cond.And left right) }
{
    let (left, right) = boxes(alloc, left, right)?;
    Ok(Cond::And(left, right))
}

fn or(alloc: Global, left: Cond, right: Cond) -> Mem<Cond>
    ensures { IfOk result (λ c. c ≡ cond.Or left right) }
{
    let (left, right) = boxes(alloc, left, right)?;
    Ok(Cond::Or(left, right))
}

fn conjunction(alloc: Global, left: Typed, right: Typed) -> Mem<Typed>
    ensures { IfOk result (λ t. t ≡ of.and_typed left right) }
{
    match conditions(left, right) {
        Ok((a, b)) => Ok(Typed::Cond(and(alloc, a, b)?)),
        Err(wrong) => Ok(wrong),
    }
}

fn disjunction(alloc: Global, left: Typed, right: Typed) -> Mem<Typed>
    ensures { IfOk result (λ t. t ≡ of.or_typed left right) }
{
    match conditions(left, right) {
        Ok((a, b)) => Ok(Typed::Cond(or(alloc, a, b)?)),
        Err(wrong) => Ok(wrong),
    }
}

/// An operator between two parts.
pub fn operation(alloc: Global, op: Op, left: Typed, right: Typed) -> Mem<Typed>
    ensures { IfOk result (λ t. t ≡ of.bin_typed op left right) }
{
    match op {
        Op::Or => disjunction(alloc, left, right),
        Op::And => conjunction(alloc, left, right),
        Op::Equal => Ok(comparison(CmpOp::Eq, left, right)),
        Op::NotEqual => Ok(comparison(CmpOp::Ne, left, right)),
        Op::Less => Ok(comparison(CmpOp::Lt, left, right)),
        Op::LessEqual => Ok(comparison(CmpOp::Le, left, right)),
        Op::Greater => Ok(comparison(CmpOp::Gt, left, right)),
        Op::GreaterEqual => Ok(comparison(CmpOp::Ge, left, right)),
        Op::Add => arithmetic(alloc, ArithOp::Add, left, right),
        Op::Sub => arithmetic(alloc, ArithOp::Sub, left, right),
        Op::Mul => arithmetic(alloc, ArithOp::Mul, left, right),
        Op::Div => arithmetic(alloc, ArithOp::Div, left, right),
        Op::Rem => arithmetic(alloc, ArithOp::Rem, left, right),
    }
}
