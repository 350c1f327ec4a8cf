ghost use Rattle.std.specs.Prelude.{◌≡◌, ◌≢◌, ◌≤◌, List, slice_get, Some, IfSome, false, Ok};
ghost use Rattle.std.specs.Option.{option_copied};
ghost use Rattle.gx_meaning.specs.Expressions.{truth_of};
ghost use Rattle.gx_meaning.specs.Kinds.{IsTyped, kinds_of};
ghost use Rattle.gx_meaning.specs.Target.{IsFalseOutside, key_of, key_target, literal_of, target_of};
ghost use Rattle.gx_tree.specs.declared.value.Value.{Value};

use crate::placement::place_value;
use gx_meaning::Target;
use gx_tree::{CmpOp, Cond, Dist, Expr, Schema, Value};

/// The target of a condition among `n` segments: one segment where the leftmost conjunct of its top-level AND chain sets
/// the distribution column equal to a literal, else all.
pub fn target(schema: &Schema, cond: Option<&Cond>, n: u8) -> Target
    requires some { 1 ≤ n }
    requires few { n ≤ 16 }
    ensures target { result ≡ target_of n schema.now.dist (option_copied cond.entry) }
    ensures outside { IsFalseOutside n schema.now.dist (option_copied cond.entry) result }
{
    match (schema.dist, cond) {
        (Dist::By(column), Some(cond)) => key_target(key(column, cond), n),
        _ => Target::All,
    }
}

fn key_target(key: Option<&Value>, n: u8) -> Target
    requires some { 1 ≤ n }
    requires few { n ≤ 16 }
    ensures { result ≡ key_target n (option_copied key.entry) }
{
    match key {
        Some(value) => Target::One(place_value(value, n)),
        None => Target::All,
    }
}

/// The literal that the leftmost conjunct of a condition's top-level AND chain sets a column equal to. On a row that has another value
/// there the condition is false, without a fault.
pub fn wanted_key(column: u8, cond: &Cond) -> Option<&Value>
    ensures key { option_copied result ≡ key_of column cond.now }
    ensures denied { IfSome (option_copied result) (λ value. (row : List Value) → IsTyped (kinds_of row) cond.now → slice_get row column ≢ Some value → truth_of row cond.now ≡ Ok false) }
{
    key(column, cond)
}

// The literal that the leftmost conjunct sets the column equal to. The recursion goes as deep as the condition is nested.
fn key(column: u8, cond: &Cond) -> Option<&Value>
    ensures { option_copied result ≡ key_of column cond.now }
{
    match cond {
        Cond::Cmp(CmpOp::Eq, left, right) => literal(column, left, right),
        Cond::And(left, _) => key(column, left.get()),
        _ => None,
    }
}

fn literal<'a>(column: u8, left: &'a Expr, right: &'a Expr) -> Option<&'a Value>
    ensures { option_copied result ≡ literal_of column left.now right.now }
{
    match (left, right) {
        (Expr::Col(named), Expr::Lit(value)) | (Expr::Lit(value), Expr::Col(named)) => {
            if *named == column { Some(value) } else { None }
        }
        _ => None,
    }
}
