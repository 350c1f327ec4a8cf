ghost use Rattle.std.specs.Prelude.{◌≡◌, ◌<◌, length, MatchOption};
ghost use Rattle.gx_tree.specs.declared.schema.Kind.TheVariants as kind;
ghost use Rattle.gx_tree.specs.declared.value.Value.TheVariants.{Int, Text};
ghost use Rattle.gx_meaning.specs.Kinds.{value_kind};
ghost use Rattle.gx_meaning.specs.Expressions.{column_of};

use gx_tree::{Row, Txt, Value};

// The value of a column of a row.
pub fn column_value(row: &Row, column: u8) -> &Value
    requires { column < length row.now }
    ensures { result.now ≡ column_of row.now column }
{
    &row.as_slice()[column as usize]
}

// The number in a value that is one.
pub fn number(value: &Value) -> i64
    requires { value_kind value.now ≡ kind.Int }
    ensures { value.now ≡ Int result }
{
    match value {
        Value::Int(number) => *number,
        Value::Text(_) => unreachable!(),
    }
}

// The text in a value, where it is one.
pub fn text(value: &Value) -> Option<&Txt>
    ensures { MatchOption result (value_kind value.now ≡ kind.Int) (λ text. value.now ≡ Text text.now) }
{
    match value {
        Value::Int(_) => None,
        Value::Text(text) => Some(text),
    }
}
