// Expressions whose value is a whole number or a text.
ghost use Rattle.std.specs.Prelude.{◌≡◌, ◌++◌, codes, OnOk};
ghost use Rattle.gx_grammar.specs.Grammar.{level, left_level};
ghost use Rattle.gx_print.specs.Shapes.{op_text, shape_text};
ghost use Rattle.gx_print.specs.Forms.{enclosed_if, shape_of};
ghost use Rattle.gx_print.specs.Statements.{expr_text};
ghost use Rattle.gx_print.specs.Levels as levels;
ghost use Rattle.gx_print.specs.Written.{arith_op, value_syn, expr_syn};

use crate::names::column_name;
use gx_ids::Mem;
use gx_text::{push_bytes, push_integer, push_quoted};
use gx_tree::{ArithOp, Column, Expr, Value};

// An operator between spaces.
fn operator(op: ArithOp) -> &'static [u8]
    ensures { result.now ≡ codes " " ++ (op_text (arith_op op) ++ codes " ") }
{
    match op {
        ArithOp::Add => b" + ",
        ArithOp::Sub => b" - ",
        ArithOp::Mul => b" * ",
        ArithOp::Div => b" / ",
        ArithOp::Rem => b" % ",
    }
}

// The level of an operator's rule, which is that of its left operand too.
fn operator_level(op: ArithOp) -> u8
    ensures at { result ≡ level (arith_op op) }
    ensures left { result ≡ left_level (arith_op op) }
{
    match op {
        ArithOp::Add | ArithOp::Sub => 5,
        ArithOp::Mul | ArithOp::Div | ArithOp::Rem => 6,
    }
}

// The level of the rule that writes an expression.
#[tactic(auto, using(crate::proofs::Nodes::levels))]
fn expr_level(expr: &Expr) -> u8
    ensures { result ≡ levels.expr_level expr.now }
{
    match expr {
        Expr::Bin(op, _, _) => operator_level(*op),
        Expr::Lit(_) | Expr::Col(_) | Expr::Neg(_) => 7,
    }
}

fn is_number(value: &Value) -> bool
    ensures { result ≡ levels.is_number value.now }
{
    match value {
        Value::Int(_) => true,
        Value::Text(_) => false,
    }
}

// Whether an expression stands in parentheses behind a minus sign.
#[tactic(auto, using(crate::proofs::Nodes::levels))]
fn is_closed(expr: &Expr) -> bool
    ensures { result ≡ levels.is_closed expr.now }
{
    match expr {
        Expr::Lit(value) => is_number(value),
        Expr::Col(_) => false,
        Expr::Neg(_) | Expr::Bin(_, _, _) => true,
    }
}

#[tactic(auto, using(crate::proofs::Nodes::values))]
fn push_value(text: &mut Vec<u8>, value: &Value) -> Mem<()>
    ensures { OnOk result (text.new.items ≡ text.old.items ++ expr_text (value_syn value.now)) }
{
    match value {
        Value::Int(number) => push_integer(text, i128::from(*number)),
        Value::Text(bytes) => push_quoted(text, bytes.as_slice()),
    }
}

// Adds an expression, in parentheses where they are needed.
#[cycle(expressions)]
fn push_operand(text: &mut Vec<u8>, columns: &[Column], enclosed: bool, expr: &Expr) -> Mem<()>
    ensures { OnOk result (text.new.items ≡ text.old.items ++ shape_text (enclosed_if enclosed (shape_of (expr_syn columns.now expr.now)))) }
{
    if enclosed {
        push_bytes(text, b"(")?;
        push_expr(text, columns, expr)?;
        push_bytes(text, b")")
    } else {
        push_expr(text, columns, expr)
    }
}

/// Adds an expression. The recursion goes as deep as the expression is nested, which the language limits.
#[cycle(expressions)]
#[tactic(auto, using(crate::proofs::Nodes::exprs))]
pub fn push_expr(text: &mut Vec<u8>, columns: &[Column], expr: &Expr) -> Mem<()>
    ensures { OnOk result (text.new.items ≡ text.old.items ++ expr_text (expr_syn columns.now expr.now)) }
{
    match expr {
        Expr::Lit(value) => push_value(text, value),
        Expr::Col(place) => push_bytes(text, column_name(columns, *place)),
        Expr::Neg(inner) => {
            let inner = inner.get();
            push_bytes(text, b"-")?;
            push_operand(text, columns, is_closed(inner), inner)
        }
        Expr::Bin(op, left, right) => {
            let level = operator_level(*op);
            let (left, right) = (left.get(), right.get());
            push_operand(text, columns, expr_level(left) < level, left)?;
            push_bytes(text, operator(*op))?;
            push_operand(text, columns, expr_level(right) < level + 1, right)
        }
    }
}
