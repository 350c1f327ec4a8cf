// SELECT.
ghost use Rattle.std.specs.Prelude.{◌≡◌, ◌++◌, codes, OnOk};
ghost use Rattle.std.specs.Option.{option_map};
ghost use Rattle.gx_print.specs.Statements as of;
ghost use Rattle.gx_print.specs.Written.{column_name, cond_syn, item_syn_of, key_syn, unless_empty, to_size, select_syn, query_syn};

use crate::conds::push_cond;
use crate::lists::{Printed, push_list};
use crate::names::{column_name, columns_of, table_name};
use gx_ids::Mem;
use gx_text::{push_bytes, push_count};
use gx_tree::{Column, Cond, Item, Key, Query, Schema};

// Adds a call of an aggregate on a column.
fn push_call(text: &mut Vec<u8>, columns: &[Column], name: &[u8], place: u8) -> Mem<()>
    ensures { OnOk result (text.new.items ≡ text.old.items ++ (name.now ++ (codes "(" ++ (column_name columns.now place ++ codes ")")))) }
{
    push_bytes(text, name)?;
    push_bytes(text, b"(")?;
    push_bytes(text, column_name(columns, place))?;
    push_bytes(text, b")")
}

impl Printed for Item {
    ghost use Rattle.gx_lines.specs.declared.syn.ItemSyn.{ItemSyn};
    ghost use Rattle.gx_print.specs.Statements.{item_text};
    ghost use Rattle.gx_print.specs.Written.{item_syn_of};

    ghost Written = { ItemSyn };

    ghost written = { item_syn_of };

    ghost form = { item_text };

    fn push(&self, text: &mut Vec<u8>, columns: &[Column]) -> Mem<()> {
        match self {
            Item::Col(place) => push_bytes(text, column_name(columns, *place)),
            Item::Count => push_bytes(text, b"COUNT(*)"),
            Item::Sum(place) => push_call(text, columns, b"SUM", *place),
            Item::Min(place) => push_call(text, columns, b"MIN", *place),
            Item::Max(place) => push_call(text, columns, b"MAX", *place),
        }
    }
}

impl Printed for u8 {
    ghost use Rattle.std.specs.Prelude.{List, ℕ};
    ghost use Rattle.gx_print.specs.Written.{column_name};

    ghost Written = { List ℕ };

    ghost written = { column_name };

    ghost form = { λ name. name };

    fn push(&self, text: &mut Vec<u8>, columns: &[Column]) -> Mem<()> {
        push_bytes(text, column_name(columns, *self))
    }
}

impl Printed for Key {
    ghost use Rattle.gx_lines.specs.declared.syn.KeySyn.{KeySyn};
    ghost use Rattle.gx_print.specs.Statements.{key_text};
    ghost use Rattle.gx_print.specs.Written.{key_syn};

    ghost Written = { KeySyn };

    ghost written = { key_syn };

    ghost form = { key_text };

    fn push(&self, text: &mut Vec<u8>, columns: &[Column]) -> Mem<()> {
        push_bytes(text, column_name(columns, self.col))?;
        if self.desc {
            push_bytes(text, b" DESC")
        } else {
            Ok(())
        }
    }
}

/// Adds the condition behind WHERE, where there is one.
pub fn push_where(text: &mut Vec<u8>, columns: &[Column], cond: &Option<Cond>) -> Mem<()>
    ensures { OnOk result (text.new.items ≡ text.old.items ++ of.where_text (option_map (cond_syn columns.now) cond.now)) }
{
    match cond {
        None => Ok(()),
        Some(cond) => {
            push_bytes(text, b" WHERE ")?;
            push_cond(text, columns, cond)
        }
    }
}

// Adds the columns behind GROUP BY, where there are some.
fn push_group(text: &mut Vec<u8>, columns: &[Column], group: &[u8]) -> Mem<()>
    ensures { OnOk result (text.new.items ≡ text.old.items ++ of.group_text (unless_empty (column_name columns.now) group.now)) }
{
    let [_first, ..] = group else {
        return Ok(());
    };
    push_bytes(text, b" GROUP BY ")?;
    push_list(text, columns, group)
}

// Adds the keys behind ORDER BY, where there are some.
fn push_order(text: &mut Vec<u8>, columns: &[Column], order: &[Key]) -> Mem<()>
    ensures { OnOk result (text.new.items ≡ text.old.items ++ of.order_text (unless_empty (key_syn columns.now) order.now)) }
{
    let [_first, ..] = order else {
        return Ok(());
    };
    push_bytes(text, b" ORDER BY ")?;
    push_list(text, columns, order)
}

// Adds the number behind LIMIT, where there is one.
fn push_limit(text: &mut Vec<u8>, limit: Option<u64>) -> Mem<()>
    ensures { OnOk result (text.new.items ≡ text.old.items ++ of.limit_text (option_map to_size limit)) }
{
    match limit {
        None => Ok(()),
        Some(limit) => {
            push_bytes(text, b" LIMIT ")?;
            push_count(text, u128::from(limit))
        }
    }
}

// Adds what stands behind the name of the table.
fn push_parts(text: &mut Vec<u8>, columns: &[Column], query: &Query) -> Mem<()>
    ensures { OnOk result (text.new.items ≡ text.old.items ++ (of.where_text (option_map (cond_syn columns.now) query.now.cond)
        ++ (of.group_text (unless_empty (column_name columns.now) query.now.group)
        ++ (of.order_text (unless_empty (key_syn columns.now) query.now.order) ++ of.limit_text (option_map to_size query.now.limit))))) }
{
    push_where(text, columns, &query.cond)?;
    push_group(text, columns, query.group.as_slice())?;
    push_order(text, columns, query.order.as_slice())?;
    push_limit(text, query.limit)
}

// Adds a SELECT from the table of a name and of columns.
fn push_query(text: &mut Vec<u8>, name: &[u8], columns: &[Column], query: &Query) -> Mem<()>
    ensures { OnOk result (text.new.items ≡ text.old.items ++ of.select_text (select_syn name.now columns.now query.now)) }
{
    push_bytes(text, b"SELECT ")?;
    push_list(text, columns, query.items.as_slice())?;
    push_bytes(text, b" FROM ")?;
    push_bytes(text, name)?;
    push_parts(text, columns, query)
}

/// Adds a SELECT.
pub fn push_select(text: &mut Vec<u8>, tables: &[Schema], query: &Query) -> Mem<()>
    ensures { OnOk result (text.new.items ≡ text.old.items ++ of.select_text (query_syn tables.now query.now)) }
{
    let name = table_name(tables, query.table);
    push_query(text, name, columns_of(tables, query.table), query)
}
