// SELECT over the columns of a table.
ghost use Rattle.std.specs.Prelude.{◌≡◌, ◌≤◌, length, Option, Ok, Err, if◌then◌else◌};
ghost use Rattle.std.specs.List.{list_any, list_all};
ghost use Rattle.gx_resolve.specs.Results.{Says};
ghost use Rattle.gx_resolve.specs.Selecting as of;

use crate::fault::{NameFault, ResolveError};
use crate::parts::{Written, column_at, resolve_each, where_as};
use gx_ids::{Seq, Table};
use gx_lines::{Agg, Direction, ItemSyn, ItemsSyn, KeySyn, SelectSyn, Size};
use gx_tree::{Column, Item, Key, Kind, Query, Txt};
use std::alloc::Global;

fn agg_as(agg: Agg, place: u8, kind: Kind) -> Result<Item, NameFault>
    ensures { result ≡ of.agg_as agg place kind }
{
    match (agg, kind) {
        (Agg::Sum, Kind::Int) => Ok(Item::Sum(place)),
        (Agg::Sum, Kind::Text) => Err(NameFault::TypeMismatch),
        (Agg::Min, _) => Ok(Item::Min(place)),
        (Agg::Max, _) => Ok(Item::Max(place)),
    }
}

fn item_as(columns: &[Column], item: &ItemSyn) -> Result<Item, NameFault>
    requires { length columns.now ≤ 256 }
    ensures { result ≡ of.item_as columns.now item.now }
{
    match item {
        ItemSyn::Column(name) => {
            let (place, _) = column_at(columns, name)?;
            Ok(Item::Col(place))
        }
        ItemSyn::Count => Ok(Item::Count),
        ItemSyn::Agg(agg, name) => {
            let (place, kind) = column_at(columns, name)?;
            agg_as(*agg, place, kind)
        }
    }
}

impl Written for ItemSyn {
    ghost use Rattle.gx_resolve.specs.Selecting.{item_as};

    type Out = Item;

    ghost means = { item_as };

    fn resolve(&self, _alloc: Global, columns: &[Column]) -> Result<Item, ResolveError> {
        Ok(item_as(columns, self)?)
    }
}

impl Written for Txt {
    ghost use Rattle.gx_resolve.specs.Selecting.{name_as};

    type Out = u8;

    ghost means = { name_as };

    fn resolve(&self, _alloc: Global, columns: &[Column]) -> Result<u8, ResolveError> {
        let (place, _) = column_at(columns, self)?;
        Ok(place)
    }
}

fn descends(direction: Option<Direction>) -> bool
    ensures { result ≡ of.descends direction }
{
    match direction {
        Some(Direction::Desc) => true,
        Some(Direction::Asc) => false,
        None => false,
    }
}

impl Written for KeySyn {
    ghost use Rattle.gx_resolve.specs.Selecting.{key_as};

    type Out = Key;

    ghost means = { key_as };

    fn resolve(&self, _alloc: Global, columns: &[Column]) -> Result<Key, ResolveError> {
        let (col, _) = column_at(columns, &self.column)?;
        let desc = descends(self.direction);
        Ok(Key { col, desc })
    }
}

// All columns, in order.
fn all_columns(alloc: Global, columns: &[Column]) -> Result<Seq<Item>, ResolveError>
    requires { length columns.now ≤ 256 }
    ensures { Says result (Ok (of.columns_from 0 columns.now)) }
{
    let mut items = Seq::new(alloc);
    for place in 0..columns.len() {
        items.push(Item::Col(place as u8))?;
    }
    Ok(items)
}

fn items_as(alloc: Global, columns: &[Column], items: &ItemsSyn) -> Result<Seq<Item>, ResolveError>
    requires { length columns.now ≤ 256 }
    ensures { Says result (of.items_as columns.now items.now) }
{
    match items {
        ItemsSyn::All => all_columns(alloc, columns),
        ItemsSyn::These(items) => resolve_each(alloc, columns, items.as_slice()),
    }
}

fn group_as(
    alloc: Global,
    columns: &[Column],
    group: &Option<Seq<Txt>>,
) -> Result<Seq<u8>, ResolveError>
    requires { length columns.now ≤ 256 }
    ensures { Says result (of.group_as columns.now group.now) }
{
    match group {
        None => Ok(Seq::new(alloc)),
        Some(names) => resolve_each(alloc, columns, names.as_slice()),
    }
}

fn order_as(
    alloc: Global,
    columns: &[Column],
    order: &Option<Seq<KeySyn>>,
) -> Result<Seq<Key>, ResolveError>
    requires { length columns.now ≤ 256 }
    ensures { Says result (of.order_as columns.now order.now) }
{
    match order {
        None => Ok(Seq::new(alloc)),
        Some(keys) => resolve_each(alloc, columns, keys.as_slice()),
    }
}

fn limit_as(limit: Option<Size>) -> Result<Option<u64>, NameFault>
    ensures { result ≡ of.limit_as limit }
{
    match limit {
        None => Ok(None),
        Some(Size(None)) => Err(NameFault::TypeMismatch),
        Some(Size(Some(size))) => Ok(Some(size)),
    }
}

fn is_aggregate(item: &ItemSyn) -> bool
    ensures { result ≡ of.is_aggregate item.now }
{
    match item {
        ItemSyn::Column(_) => false,
        ItemSyn::Count => true,
        ItemSyn::Agg(_, _) => true,
    }
}

fn any_aggregate(items: &[ItemSyn]) -> bool
    ensures { result ≡ list_any of.is_aggregate items.now }
{
    for item in items {
        if is_aggregate(item) {
            return true;
        }
    }
    false
}

fn has_aggregate(items: &ItemsSyn) -> bool
    ensures { result ≡ of.has_aggregate items.now }
{
    match items {
        ItemsSyn::All => false,
        ItemsSyn::These(items) => any_aggregate(items.as_slice()),
    }
}

/// Whether a query is of groups.
pub fn is_grouped(select: &SelectSyn) -> bool
    ensures { result ≡ of.is_grouped select.now }
{
    has_aggregate(&select.items) || select.group.is_some()
}

fn is_listed(items: &ItemsSyn) -> bool
    ensures { result ≡ of.is_listed items.now }
{
    match items {
        ItemsSyn::All => false,
        ItemsSyn::These(_) => true,
    }
}

fn is_in(places: &[u8], place: u8) -> bool
    ensures { result ≡ of.is_in places.now place }
{
    places.iter().any(|other| *other == place)
}

fn is_group_item(group: &[u8], item: Item) -> bool
    ensures { result ≡ of.is_group_item group.now item }
{
    match item {
        Item::Col(place) => is_in(group, place),
        Item::Count => true,
        Item::Sum(_) => true,
        Item::Min(_) => true,
        Item::Max(_) => true,
    }
}

fn is_group_key(group: &[u8], key: Key) -> bool
    ensures { result ≡ of.is_group_key group.now key }
{
    is_in(group, key.col)
}

fn are_group_items(group: &[u8], items: &[Item]) -> bool
    ensures { result ≡ list_all (of.is_group_item group.now) items.now }
{
    items.iter().all(|item| is_group_item(group, *item))
}

fn are_group_keys(group: &[u8], order: &[Key]) -> bool
    ensures { result ≡ list_all (of.is_group_key group.now) order.now }
{
    order.iter().all(|key| is_group_key(group, *key))
}

// Whether the rules of groups are kept where an aggregate or GROUP BY stands.
fn are_group_parts(select: &SelectSyn, items: &[Item], group: &[u8], order: &[Key]) -> bool
    ensures { result ≡ of.are_group_parts select.now items.now group.now order.now }
{
    is_listed(&select.items)
        && are_group_items(group, items)
        && are_group_keys(group, order)
        && (select.group.is_some() || select.order.is_none())
}

fn keeps_groups(select: &SelectSyn, items: &[Item], group: &[u8], order: &[Key]) -> bool
    ensures { result ≡ of.keeps_groups select.now items.now group.now order.now }
{
    !is_grouped(select) || are_group_parts(select, items, group, order)
}

fn groups_kept(kept: bool) -> Result<(), NameFault>
    ensures { result ≡ of.groups_kept kept }
{
    if kept {
        Ok(())
    } else {
        Err(NameFault::TypeMismatch)
    }
}

fn check_groups(
    select: &SelectSyn,
    items: &Seq<Item>,
    group: &Seq<u8>,
    order: &Seq<Key>,
) -> Result<(), NameFault>
    ensures { result ≡ of.groups_kept (of.keeps_groups select.now items.now group.now order.now) }
{
    let kept = keeps_groups(select, items.as_slice(), group.as_slice(), order.as_slice());
    groups_kept(kept)
}

/// The query that a SELECT is over the columns of its table.
pub fn query_as(
    alloc: Global,
    table: Table,
    columns: &[Column],
    select: &SelectSyn,
) -> Result<Query, ResolveError>
    requires { length columns.now ≤ 256 }
    ensures { Says result (of.query_as table columns.now select.now) }
{
    let items = items_as(alloc, columns, &select.items)?;
    let group = group_as(alloc, columns, &select.group)?;
    let order = order_as(alloc, columns, &select.order)?;
    let limit = limit_as(select.limit)?;
    check_groups(select, &items, &group, &order)?;
    let cond = where_as(alloc, columns, &select.cond)?;
    Ok(Query {
        table,
        items,
        cond,
        group,
        grouped: is_grouped(select),
        order,
        limit,
    })
}
