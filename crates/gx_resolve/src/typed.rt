ghost use Rattle.std.specs.Prelude.{◌≡◌};

use gx_tree::{Cond, Expr, Kind};

/// What a written expression is over the columns of a table: a value of a kind, or a condition. `Unknown` has the name of
/// a column that the table lacks; `Mismatch` has none, and kinds that don't go together or a number out of range.
#[derive(Drop)]
pub enum Typed {
    Value(Kind, Expr),
    Cond(Cond),
    Unknown,
    Mismatch,
}
