// Queries that are right for a table's columns.
ghost use Rattle.std.specs.Prelude.{◌≡◌, is_some, map, slice_get};
ghost use Rattle.std.specs.List.{list_all, list_any};
ghost use Rattle.gx_rules.specs.Fits as fits;

use crate::kinds::{column_kind, is_right_condition, same_kind};
use gx_tree::{Column, Item, Key, Kind, Query};

fn is_among(column: u8, columns: &[u8]) -> bool
    ensures { result ≡ fits.is_among column columns.now }
{
    columns.iter().any(|other| *other == column)
}

fn is_aggregate(item: Item) -> bool
    ensures { result ≡ fits.is_aggregate item }
{
    match item {
        Item::Col(_) => false,
        _ => true,
    }
}

fn has_aggregate(items: &[Item]) -> bool
    ensures { result ≡ list_any fits.is_aggregate items.now }
{
    items.iter().any(|item| is_aggregate(*item))
}

fn is_of_kind(kind: Kind, other: Option<Kind>) -> bool
    ensures { result ≡ fits.is_kind kind other }
{
    match other {
        Some(other) => same_kind(kind, other),
        None => false,
    }
}

// A column that a query names; where it groups, one of GROUP BY's.
fn is_right_column(columns: &[Column], query: &Query, column: u8) -> bool
    ensures { result ≡ fits.is_right_key (map (λ c. c.kind) columns.now) query.now column }
{
    column_kind(columns, column).is_some()
        && (!query.grouped || is_among(column, query.group.as_slice()))
}

fn is_right_item(columns: &[Column], query: &Query, item: Item) -> bool
    ensures { result ≡ fits.is_right_item (map (λ c. c.kind) columns.now) query.now item }
{
    match item {
        Item::Col(column) => is_right_column(columns, query, column),
        Item::Count => true,
        Item::Sum(column) => is_of_kind(Kind::Int, column_kind(columns, column)),
        Item::Min(column) => column_kind(columns, column).is_some(),
        Item::Max(column) => column_kind(columns, column).is_some(),
    }
}

fn are_right_items(columns: &[Column], query: &Query, items: &[Item]) -> bool
    ensures { result ≡ list_all (fits.is_right_item (map (λ c. c.kind) columns.now) query.now) items.now }
{
    items
        .iter()
        .all(|item| is_right_item(columns, query, *item))
}

fn are_columns(columns: &[Column], named: &[u8]) -> bool
    ensures { result ≡ list_all (λ column. is_some (slice_get (map (λ c. c.kind) columns.now) column)) named.now }
{
    named
        .iter()
        .all(|column| column_kind(columns, *column).is_some())
}

fn are_right_keys(columns: &[Column], query: &Query, keys: &[Key]) -> bool
    ensures { result ≡ list_all (λ key. fits.is_right_key (map (λ c. c.kind) columns.now) query.now key.col) keys.now }
{
    keys.iter()
        .all(|key| is_right_column(columns, query, key.col))
}

fn is_grouping(query: &Query) -> bool
    ensures { result ≡ fits.is_grouping query.now }
{
    has_aggregate(query.items.as_slice()) || !query.group.is_empty()
}

pub(crate) fn is_right_query(columns: &[Column], query: &Query) -> bool
    ensures { result ≡ fits.is_right_query (map (λ c. c.kind) columns.now) query.now }
{
    is_right_condition(columns, &query.cond)
        && query.grouped == is_grouping(query)
        && are_right_items(columns, query, query.items.as_slice())
        && are_columns(columns, query.group.as_slice())
        && are_right_keys(columns, query, query.order.as_slice())
}
