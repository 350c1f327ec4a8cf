// Holds what was read while more is read. What is dropped here is of any type, so that a caller's proof doesn't take it apart.
ghost use Rattle.std.specs.Prelude.{◌≡◌, Ok, Err, IfOk, IfErr};
ghost use Rattle.gx_grammar.specs.Code.{Gives};
ghost use Rattle.gx_grammar.specs.Tokens as class;
ghost use Rattle.gx_grammar.specs.Rules.{made_at, marked, one_at};

use crate::query::Reading;
use gx_grammar::read_sign;
use gx_lex::{Symbol, Token};

/// What was read, where this sign stands behind it.
pub fn before_sign<'a, 't, T: Drop>(
    part: T,
    sign: Symbol,
    tokens: &'a [Token<'t>],
) -> Reading<'a, 't, T>
    ensures { Gives (λ r. (r.0, r.1.now)) result (made_at (λ _. part) (one_at (marked (class.is_sign sign))) tokens.now) }
{
    match read_sign(sign, tokens) {
        Ok(rest) => Ok((part, rest)),
        Err(fault) => {
            drop(part);
            Err(fault)
        }
    }
}

/// What was read first, with what was read behind it.
pub fn paired<A: Drop, B, R, E>(first: A, second: Result<(B, R), E>) -> Result<((A, B), R), E>
    ensures pair { IfOk result (λ r. (r.0.0 ≡ first) × (second ≡ Ok (r.0.1, r.1))) }
    ensures fault { IfErr result (λ e. second ≡ Err e) }
{
    match second {
        Ok((second, rest)) => Ok(((first, second), rest)),
        Err(fault) => {
            drop(first);
            Err(fault)
        }
    }
}
