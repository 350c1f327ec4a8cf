// The kinds of expressions over a table's columns, and conditions that compare what can be compared.
ghost use Rattle.std.specs.Prelude.{◌≡◌, map, slice_get};
ghost use Rattle.gx_meaning.specs.Kinds.{are_comparable, is_typed, kind_of, number_kind, value_kind};
ghost use Rattle.gx_rules.specs.Fits.{is_right_cond, is_same_kind};

use gx_tree::{Column, Cond, Expr, Kind, Value};

pub(crate) fn kind_of_value(value: &Value) -> Kind
    ensures { result ≡ value_kind value.now }
{
    match value {
        Value::Int(_) => Kind::Int,
        Value::Text(_) => Kind::Text,
    }
}

pub(crate) fn column_kind(columns: &[Column], column: u8) -> Option<Kind>
    ensures { result ≡ slice_get (map (λ c. c.kind) columns.now) column }
{
    columns.get(usize::from(column)).map(|column| column.kind)
}

fn of_numbers(left: Option<Kind>, right: Option<Kind>) -> Option<Kind>
    ensures { result ≡ number_kind left right }
{
    match (left, right) {
        (Some(Kind::Int), Some(Kind::Int)) => Some(Kind::Int),
        _ => None,
    }
}

// The kind of an expression, if it has one.
#[tactic(auto, using(gx_meaning::proofs::Nodes::expression_kinds))]
pub(crate) fn kind_of_expr(columns: &[Column], expr: &Expr) -> Option<Kind>
    ensures { result ≡ kind_of (map (λ c. c.kind) columns.now) expr.now }
{
    match expr {
        Expr::Lit(value) => Some(kind_of_value(value)),
        Expr::Col(column) => column_kind(columns, *column),
        Expr::Neg(inner) => {
            let kind = kind_of_expr(columns, inner.get());
            of_numbers(kind, kind)
        }
        Expr::Bin(_, left, right) => of_numbers(
            kind_of_expr(columns, left.get()),
            kind_of_expr(columns, right.get()),
        ),
    }
}

fn comparable(left: Option<Kind>, right: Option<Kind>) -> bool
    ensures { result ≡ are_comparable left right }
{
    match (left, right) {
        (Some(Kind::Int), Some(Kind::Int)) => true,
        (Some(Kind::Text), Some(Kind::Text)) => true,
        _ => false,
    }
}

// Whether each comparison is of two expressions of one kind.
#[tactic(auto, using(gx_meaning::proofs::Nodes::typings))]
fn compares_kinds(columns: &[Column], cond: &Cond) -> bool
    ensures { result ≡ is_typed (map (λ c. c.kind) columns.now) cond.now }
{
    match cond {
        Cond::Cmp(_, left, right) => {
            comparable(kind_of_expr(columns, left), kind_of_expr(columns, right))
        }
        Cond::And(left, right) => {
            compares_kinds(columns, left.get()) && compares_kinds(columns, right.get())
        }
        Cond::Or(left, right) => {
            compares_kinds(columns, left.get()) && compares_kinds(columns, right.get())
        }
        Cond::Not(inner) => compares_kinds(columns, inner.get()),
    }
}

pub(crate) fn is_right_condition(columns: &[Column], cond: &Option<Cond>) -> bool
    ensures { result ≡ is_right_cond (map (λ c. c.kind) columns.now) cond.now }
{
    match cond {
        Some(cond) => compares_kinds(columns, cond),
        None => true,
    }
}

pub(crate) fn same_kind(left: Kind, right: Kind) -> bool
    ensures { result ≡ is_same_kind left right }
{
    match (left, right) {
        (Kind::Int, Kind::Int) => true,
        (Kind::Text, Kind::Text) => true,
        _ => false,
    }
}
