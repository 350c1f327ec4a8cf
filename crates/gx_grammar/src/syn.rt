ghost use Rattle.std.specs.Prelude.{◌≡◌};

use gx_ids::Boxed;
use gx_tree::Txt;

/// What stands between two operands.
#[derive(Clone, Copy)]
pub enum Op {
    Or,
    And,
    Equal,
    NotEqual,
    Less,
    LessEqual,
    Greater,
    GreaterEqual,
    Add,
    Sub,
    Mul,
    Div,
    Rem,
}

/// An expression as it is written, without its parentheses, before its names and kinds are looked at. `Number` has
/// whether it is negative and its size, `None` where that is above 18446744073709551615.
#[derive(Drop)]
pub enum Syn {
    Number(bool, Option<u64>),
    Text(Txt),
    Column(Txt),
    Neg(Boxed<Syn>),
    Not(Boxed<Syn>),
    Bin(Op, Boxed<Syn>, Boxed<Syn>),
}
