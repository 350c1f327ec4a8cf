ghost use Rattle.std.specs.Prelude.{◌≡◌, ◌∷◌, [], IfOk, IfSome, OnOk};
ghost use Rattle.gx_tree.specs.declared.value.Value.TheVariants.{Int};
ghost use Rattle.gx_meaning.specs.Expressions.{column_of};
ghost use Rattle.gx_meaning.specs.Groups.{key_of};
ghost use Rattle.gx_meaning.specs.Order.{rising};

use gx_ids::{Duplicate, Mem, copies};
use gx_tree::{KeyedRow, Row, Value};
use std::alloc::Global;
use std::cmp::Ordering;
use std::marker::Model;

// The values of the GROUP BY columns in a group's rows. Contracts see it as the list of them. Its order is that of the
// first difference.
#[derive(Drop)]
pub struct GroupKey {
    values: Vec<Value>,
}

impl Model for GroupKey {
    ghost use Rattle.std.specs.Prelude.{List};
    ghost use Rattle.gx_tree.specs.declared.value.Value.{Value as RowValue};

    ghost Value = { List RowValue };

    ghost view = { λ key. key.values.items };
}

impl GroupKey {
    // The key without values.
    pub fn new(alloc: Global) -> GroupKey
        ensures { result ≡ [] }
    {
        GroupKey {
            values: Vec::new(alloc),
        }
    }

    // The key of a group's row of values.
    pub fn from_row(alloc: Global, row: &Row) -> Mem<GroupKey>
        ensures { IfOk result (λ key. key ≡ row.now) }
    {
        Ok(GroupKey {
            values: copies(alloc, row.as_slice())?,
        })
    }

    pub fn as_slice(&self) -> &[Value]
        ensures { result.now ≡ self.now }
    {
        self.values.as_slice()
    }

    pub fn into_row(self, alloc: Global) -> Mem<Row>
        ensures { IfOk result (λ row. row ≡ self) }
    {
        let GroupKey { values } = self;
        Row::from_vec(alloc, values)
    }

    // Makes it the key of a row's group, in the room that it has.
    pub fn set(&mut self, alloc: Global, group: &[u8], row: &KeyedRow) -> Mem<()>
        ensures { OnOk result (self.new ≡ key_of group.now row.now) }
    {
        put_values(alloc, &mut self.values, group, row)
    }
}

// The values of a row's GROUP BY columns, in place of others.
fn put_values(alloc: Global, values: &mut Vec<Value>, group: &[u8], row: &KeyedRow) -> Mem<()>
    ensures { OnOk result (values.new.items ≡ key_of group.now row.now) }
{
    values.clear();
    for column in group {
        values.push(column_value(alloc, row, *column)?)?;
    }
    Ok(())
}

fn column_value(alloc: Global, row: &KeyedRow, column: u8) -> Mem<Value>
    ensures { IfOk result (λ value. value ≡ column_of row.now.row column) }
{
    match row.row.as_slice().get(usize::from(column)) {
        Some(value) => value.copy(alloc),
        None => Ok(Value::Int(0)),
    }
}

// Lists of values by their first difference. Most keys are one number.
fn compare_values(left: &[Value], right: &[Value]) -> Ordering
    ensures { result ≡ rising left.now right.now }
{
    match (one_number(left), one_number(right)) {
        (Some(a), Some(b)) => a.cmp(&b),
        _ => left.cmp(right),
    }
}

// The number of a list that has only one.
fn one_number(values: &[Value]) -> Option<i64>
    ensures { IfSome result (λ number. values.now ≡ Int number ∷ []) }
{
    match values {
        [Value::Int(number)] => Some(*number),
        _ => None,
    }
}

impl Duplicate for GroupKey {
    fn copy(&self, alloc: Global) -> Mem<GroupKey> {
        Ok(GroupKey {
            values: copies(alloc, self.values.as_slice())?,
        })
    }
}

impl PartialEq for GroupKey {
    ghost use Rattle.std.specs.Ordering.{eq_by_cmp};
    ghost use Rattle.gx_meaning.specs.Order.{rising};
    ghost use Rattle.gx_gather.specs.Laws.{rising-per};

    ghost eq = { eq_by_cmp rising };

    ghost laws = { rising-per };

    fn eq(&self, other: &GroupKey) -> bool {
        self.cmp(other).is_eq()
    }
}

impl Eq for GroupKey {
    ghost use Rattle.gx_gather.specs.Laws.{rising-equiv};

    ghost laws = { rising-equiv };
}

impl Ord for GroupKey {
    ghost use Rattle.std.specs.Prelude.{refl};
    ghost use Rattle.gx_meaning.specs.Order.{rising};
    ghost use Rattle.gx_gather.specs.Laws.{rising-total};

    ghost cmp = { rising };

    ghost total = { rising-total };

    ghost matches_partial_cmp = { λ a b. refl };

    ghost matches_eq = { λ a b. refl };

    fn cmp(&self, other: &GroupKey) -> Ordering {
        compare_values(self.values.as_slice(), other.values.as_slice())
    }
}

impl PartialOrd for GroupKey {
    ghost use Rattle.std.specs.Prelude.{Some};
    ghost use Rattle.gx_meaning.specs.Order.{rising};
    ghost use Rattle.gx_gather.specs.Laws.{rising-po};

    ghost partial_cmp = { λ a b. Some (rising a b) };

    ghost laws = { rising-po };

    fn partial_cmp(&self, other: &GroupKey) -> Option<Ordering> {
        Some(self.cmp(other))
    }
}
