// SET lists that are right for a table's columns.
ghost use Rattle.std.specs.Prelude.{◌≡◌, ◌&&◌, map};
ghost use Rattle.std.specs.List.{list_all};
ghost use Rattle.gx_rules.specs.Fits as fits;

use crate::kinds::{column_kind, is_right_condition, kind_of_expr, same_kind};
use gx_tree::{Assign, Column, Cond, Kind};

fn is_kind(kind: Kind, found: Option<Kind>) -> bool
    ensures { result ≡ fits.is_kind kind found }
{
    match found {
        Some(other) => same_kind(kind, other),
        None => false,
    }
}

// The value is of the column's kind.
fn is_right_kind(kind: Option<Kind>, found: Option<Kind>) -> bool
    ensures { result ≡ fits.is_right_kind kind found }
{
    match kind {
        Some(kind) => is_kind(kind, found),
        None => false,
    }
}

fn is_right_assign(columns: &[Column], assign: &Assign) -> bool
    ensures { result ≡ fits.is_right_assign (map (λ c. c.kind) columns.now) assign.now }
{
    is_right_kind(
        column_kind(columns, assign.col),
        kind_of_expr(columns, &assign.expr),
    )
}

fn are_right_assigns(columns: &[Column], assigns: &[Assign]) -> bool
    ensures { result ≡ list_all (fits.is_right_assign (map (λ c. c.kind) columns.now)) assigns.now }
{
    assigns
        .iter()
        .all(|assign| is_right_assign(columns, assign))
}

pub(crate) fn is_right_change(columns: &[Column], assigns: &[Assign], cond: &Option<Cond>) -> bool
    ensures { result ≡ (list_all (fits.is_right_assign (map (λ c. c.kind) columns.now)) assigns.now && fits.is_right_cond (map (λ c. c.kind) columns.now) cond.now) }
{
    are_right_assigns(columns, assigns) && is_right_condition(columns, cond)
}
