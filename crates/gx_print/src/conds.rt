// Conditions.
ghost use Rattle.std.specs.Prelude.{◌≡◌, ◌++◌, codes, OnOk};
ghost use Rattle.gx_grammar.specs.declared.syn.Syn.TheVariants.{Bin};
ghost use Rattle.gx_print.specs.Shapes.{op_text, shape_text};
ghost use Rattle.gx_print.specs.Forms.{enclosed_if, shape_of};
ghost use Rattle.gx_print.specs.Statements.{expr_text};
ghost use Rattle.gx_print.specs.Levels as levels;
ghost use Rattle.gx_print.specs.Written.{cmp_op, expr_syn, cond_syn};

use crate::exprs::push_expr;
use gx_ids::Mem;
use gx_text::push_bytes;
use gx_tree::{CmpOp, Column, Cond, Expr};

// An operator between spaces.
fn operator(op: CmpOp) -> &'static [u8]
    ensures { result.now ≡ codes " " ++ (op_text (cmp_op op) ++ codes " ") }
{
    match op {
        CmpOp::Eq => b" = ",
        CmpOp::Ne => b" <> ",
        CmpOp::Lt => b" < ",
        CmpOp::Le => b" <= ",
        CmpOp::Gt => b" > ",
        CmpOp::Ge => b" >= ",
    }
}

// The level of the rule that writes a condition.
#[tactic(auto, using(crate::proofs::CondNodes::levels))]
fn cond_level(cond: &Cond) -> u8
    ensures { result ≡ levels.cond_level cond.now }
{
    match cond {
        Cond::Or(_, _) => 1,
        Cond::And(_, _) => 2,
        Cond::Not(_) => 3,
        Cond::Cmp(_, _, _) => 4,
    }
}

// Adds a comparison. Its sides never need parentheses, since all of their operators bind more closely.
fn push_comparison(
    text: &mut Vec<u8>,
    columns: &[Column],
    op: CmpOp,
    left: &Expr,
    right: &Expr,
) -> Mem<()>
    ensures { OnOk result (text.new.items ≡ text.old.items ++ expr_text (Bin (cmp_op op) (expr_syn columns.now left.now) (expr_syn columns.now right.now))) }
{
    push_expr(text, columns, left)?;
    push_bytes(text, operator(op))?;
    push_expr(text, columns, right)
}

// Adds a condition, in parentheses where they are needed.
#[cycle(conditions)]
fn push_part(text: &mut Vec<u8>, columns: &[Column], enclosed: bool, cond: &Cond) -> Mem<()>
    ensures { OnOk result (text.new.items ≡ text.old.items ++ shape_text (enclosed_if enclosed (shape_of (cond_syn columns.now cond.now)))) }
{
    if enclosed {
        push_bytes(text, b"(")?;
        push_cond(text, columns, cond)?;
        push_bytes(text, b")")
    } else {
        push_cond(text, columns, cond)
    }
}

/// Adds a condition. The recursion goes as deep as the condition is nested, which the language limits.
#[cycle(conditions)]
#[tactic(auto, using(crate::proofs::CondNodes::conds))]
pub fn push_cond(text: &mut Vec<u8>, columns: &[Column], cond: &Cond) -> Mem<()>
    ensures { OnOk result (text.new.items ≡ text.old.items ++ expr_text (cond_syn columns.now cond.now)) }
{
    match cond {
        Cond::Cmp(op, left, right) => push_comparison(text, columns, *op, left, right),
        Cond::And(left, right) => {
            let (left, right) = (left.get(), right.get());
            push_part(text, columns, cond_level(left) < 2, left)?;
            push_bytes(text, b" AND ")?;
            push_part(text, columns, cond_level(right) < 3, right)
        }
        Cond::Or(left, right) => {
            let (left, right) = (left.get(), right.get());
            push_part(text, columns, cond_level(left) < 1, left)?;
            push_bytes(text, b" OR ")?;
            push_part(text, columns, cond_level(right) < 2, right)
        }
        Cond::Not(inner) => {
            let inner = inner.get();
            push_bytes(text, b"NOT ")?;
            push_part(text, columns, cond_level(inner) < 3, inner)
        }
    }
}
