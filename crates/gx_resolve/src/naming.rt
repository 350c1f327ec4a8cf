// The names of a statement, each looked at from left to right.
ghost use Rattle.std.specs.Prelude.{◌≡◌, map, length, nat_eq, if◌then◌else◌, Ok, Err, [], Option, List};
ghost use Rattle.std.specs.List.{list_all, list_any, flat_map};
ghost use Rattle.std.specs.Cmp.Lexicographic.{pointwise};
ghost use Rattle.gx_resolve.specs.Naming.{assign_right};
ghost use Rattle.gx_resolve.specs.Naming as of;

use crate::fault::NameFault;
use gx_grammar::Syn;
use gx_ids::Seq;
use gx_lines::{AssignSyn, ItemSyn, ItemsSyn, KeySyn, SelectSyn, StmtSyn, TupleSyn};
use gx_tree::{Column, Txt};

fn is_column(columns: &[Column], name: &Txt) -> bool
    ensures { result ≡ of.is_column columns.now name.now }
{
    columns.iter().any(|column| column.name == *name)
}

// Whether each name in an expression is a column's.
fn knows(columns: &[Column], syn: &Syn) -> bool
    ensures { result ≡ list_all (of.is_column columns.now) (of.names_in syn.now) }
{
    match syn {
        Syn::Number(_, _) => true,
        Syn::Text(_) => true,
        Syn::Column(name) => is_column(columns, name),
        Syn::Neg(inner) => knows(columns, inner.get()),
        Syn::Not(inner) => knows(columns, inner.get()),
        Syn::Bin(_, left, right) => knows(columns, left.get()) && knows(columns, right.get()),
    }
}

fn knows_condition(columns: &[Column], cond: &Option<Syn>) -> bool
    ensures { result ≡ list_all (of.is_column columns.now) (of.where_names cond.now) }
{
    match cond {
        None => true,
        Some(syn) => knows(columns, syn),
    }
}

fn knows_item(columns: &[Column], item: &ItemSyn) -> bool
    ensures { result ≡ list_all (of.is_column columns.now) (of.item_names item.now) }
{
    match item {
        ItemSyn::Column(name) => is_column(columns, name),
        ItemSyn::Count => true,
        ItemSyn::Agg(_, name) => is_column(columns, name),
    }
}

fn knows_each(columns: &[Column], items: &[ItemSyn]) -> bool
    ensures { result ≡ list_all (λ item. list_all (of.is_column columns.now) (of.item_names item)) items.now }
{
    items.iter().all(|item| knows_item(columns, item))
}

#[tactic(auto, using(crate::proofs::Names::lists))]
fn knows_items(columns: &[Column], items: &ItemsSyn) -> bool
    ensures { result ≡ list_all (of.is_column columns.now) (of.items_names items.now) }
{
    match items {
        ItemsSyn::All => true,
        ItemsSyn::These(items) => knows_each(columns, items.as_slice()),
    }
}

fn knows_group(columns: &[Column], group: &Option<Seq<Txt>>) -> bool
    ensures { result ≡ list_all (of.is_column columns.now) (of.group_names group.now) }
{
    match group {
        None => true,
        Some(names) => names.as_slice().iter().all(|name| is_column(columns, name)),
    }
}

fn knows_keys(columns: &[Column], keys: &[KeySyn]) -> bool
    ensures { result ≡ list_all (λ key. of.is_column columns.now (of.key_name key)) keys.now }
{
    keys.iter().all(|key| is_column(columns, &key.column))
}

#[tactic(auto, using(crate::proofs::Names::lists))]
fn knows_order(columns: &[Column], order: &Option<Seq<KeySyn>>) -> bool
    ensures { result ≡ list_all (of.is_column columns.now) (of.order_names order.now) }
{
    match order {
        None => true,
        Some(keys) => knows_keys(columns, keys.as_slice()),
    }
}

#[tactic(auto, using(crate::proofs::Names::lists))]
fn knows_select(columns: &[Column], select: &SelectSyn) -> bool
    ensures { result ≡ list_all (of.is_column columns.now) (of.select_names select.now) }
{
    knows_items(columns, &select.items)
        && knows_condition(columns, &select.cond)
        && knows_group(columns, &select.group)
        && knows_order(columns, &select.order)
}

// A number has no names, and most values are numbers.
fn knows_value(columns: &[Column], value: &Syn) -> bool
    ensures { result ≡ list_all (of.is_column columns.now) (of.names_in value.now) }
{
    match value {
        Syn::Number(_, _) => true,
        _ => knows(columns, value),
    }
}

fn knows_values(columns: &[Column], values: &[Syn]) -> bool
    ensures { result ≡ list_all (λ value. list_all (of.is_column columns.now) (of.names_in value)) values.now }
{
    values.iter().all(|value| knows_value(columns, value))
}

#[tactic(auto, using(crate::proofs::Names::lists))]
fn knows_tuple(columns: &[Column], tuple: &TupleSyn) -> bool
    ensures { result ≡ list_all (of.is_column columns.now) (of.tuple_names tuple.now) }
{
    knows_values(columns, tuple.values.as_slice())
}

fn knows_each_tuple(columns: &[Column], tuples: &[TupleSyn]) -> bool
    ensures { result ≡ list_all (λ tuple. list_all (of.is_column columns.now) (of.tuple_names tuple)) tuples.now }
{
    tuples.iter().all(|tuple| knows_tuple(columns, tuple))
}

#[tactic(auto, using(crate::proofs::Names::lists))]
fn knows_tuples(columns: &[Column], tuples: &[TupleSyn]) -> bool
    ensures { result ≡ list_all (of.is_column columns.now) (flat_map of.tuple_names tuples.now) }
{
    knows_each_tuple(columns, tuples)
}

fn known(all: bool) -> Result<(), NameFault>
    ensures { result ≡ (if all then Ok tt else Err NameFault.UnknownColumn) }
{
    if all {
        Ok(())
    } else {
        Err(NameFault::UnknownColumn)
    }
}

fn is_given(before: &[AssignSyn], name: &Txt) -> bool
    ensures { result ≡ list_any (λ assign. pointwise nat_eq (of.assign_column assign) name.now) before.now }
{
    before.iter().any(|assign| assign.column == *name)
}

// What a column is that SET writes: whether it is written already, and whether it and its value's names are columns.
fn right(again: bool, all: bool) -> Result<(), NameFault>
    ensures { result ≡ assign_right again all }
{
    if again {
        Err(NameFault::Syntax)
    } else {
        known(all)
    }
}

// An assignment of SET, whose column the ones before it don't have.
#[tactic(auto, using(crate::proofs::Names::right, crate::proofs::Names::lists))]
fn check_assign(
    columns: &[Column],
    before: &[AssignSyn],
    assign: &AssignSyn,
) -> Result<(), NameFault>
    ensures { result ≡ of.names_right columns.now (map of.assign_column before.now) (of.assign_names assign.now) }
{
    right(
        is_given(before, &assign.column),
        is_column(columns, &assign.column) && knows(columns, &assign.value),
    )
}

fn check_assigns(columns: &[Column], assigns: &[AssignSyn]) -> Result<(), NameFault>
    ensures { result ≡ of.names_right columns.now [] (flat_map of.assign_names assigns.now) }
{
    for (place, assign) in assigns.iter().enumerate() {
        check_assign(columns, &assigns[..place], assign)?;
    }
    Ok(())
}

#[tactic(auto, using(crate::proofs::Names::right, crate::proofs::Names::lists))]
fn check_update(
    columns: &[Column],
    assigns: &[AssignSyn],
    cond: &Option<Syn>,
) -> Result<(), NameFault>
    ensures { result ≡ of.names_right columns.now [] (of.update_names assigns.now cond.now) }
{
    check_assigns(columns, assigns)?;
    known(knows_condition(columns, cond))
}

/// Looks at each name of a column in a statement, from left to right.
#[tactic(auto, using(crate::proofs::Names::right))]
pub fn check_names(columns: &[Column], stmt: &StmtSyn) -> Result<(), NameFault>
    ensures { result ≡ of.names_right columns.now [] (of.names_of stmt.now) }
{
    match stmt {
        StmtSyn::Select(select) => known(knows_select(columns, select.get())),
        StmtSyn::Insert(_, tuples) => known(knows_tuples(columns, tuples.as_slice())),
        StmtSyn::Update(_, assigns, cond) => check_update(columns, assigns.as_slice(), cond),
        StmtSyn::Delete(_, cond) => known(knows_condition(columns, cond)),
        StmtSyn::Lock(_, _) => Ok(()),
        StmtSyn::Begin(_) => Ok(()),
        StmtSyn::Commit => Ok(()),
        StmtSyn::Rollback => Ok(()),
    }
}
