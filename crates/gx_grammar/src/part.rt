// Lists of parts between commas.
ghost use Rattle.std.specs.Prelude.{◌≡◌, List, length};
ghost use Rattle.gx_grammar.specs.Rules.{Reading, many_on, behind_at};
ghost use Rattle.gx_grammar.specs.Tokens.{is_comma, listed_at};
ghost use Rattle.gx_grammar.specs.Code.{Gives};
ghost use Rattle.gx_grammar.specs.declared.fault.Limits.{Limits};
ghost use Rattle.gx_lex.specs.declared.token.Token.{Token};

use crate::class::read_one;
use crate::expr::{expr_by_steps, lone_number};
use crate::fault::{Limits, ReadError};
use crate::rest::Rest;
use crate::signs::{begins_with_sign, read_sign};
use crate::syn::Syn;
use gx_ids::Seq;
use gx_lex::{Symbol, Token};
use gx_tree::Txt;
use std::alloc::Global;

/// What the parts of a list between commas may be.
pub trait Part: Sized + Drop {
    ghost reads: { Limits → List Token → Reading Self };

    /// Reads the part that stands first, and hands back the tokens behind it.
    fn read<'a, 't>(
        alloc: Global,
        limits: Limits,
        tokens: &'a [Token<'t>],
    ) -> Result<(Self, &'a [Token<'t>]), ReadError>
        ensures { Gives (λ r. (r.0, r.1.now)) result (reads limits tokens.now) };
}

/// Reads a part behind a comma.
fn next_part<'a, 't, T: Part>(
    alloc: Global,
    limits: Limits,
    tokens: &'a [Token<'t>],
) -> Result<(T, &'a [Token<'t>]), ReadError>
    ensures { Gives (λ r. (r.0, r.1.now)) result (behind_at is_comma (T.reads limits) tokens.now) }
{
    let rest = read_sign(Symbol::Comma, tokens)?;
    T::read(alloc, limits, rest)
}

/// Adds the parts that stand behind commas.
fn more_parts<'a, 't, T: Part>(
    alloc: Global,
    limits: Limits,
    parts: &mut Vec<T>,
    tokens: &'a [Token<'t>],
) -> Result<&'a [Token<'t>], ReadError>
    ensures { Gives (λ r. (parts.new.items, r.now)) result (many_on is_comma (behind_at is_comma (T.reads limits)) (length tokens.now) parts.old.items tokens.now) }
{
    let mut rest = Rest { tokens };
    for _turn in 0..tokens.len() {
        if !begins_with_sign(Symbol::Comma, rest.tokens) {
            return Ok(rest.tokens);
        }
        let (part, others) = next_part(alloc, limits, rest.tokens)?;
        parts.push(part)?;
        rest = Rest { tokens: others };
    }
    Ok(rest.tokens)
}

/// Reads the list that stands first, of one part at least, and hands back the tokens behind it.
pub fn read_list<'a, 't, T: Part>(
    alloc: Global,
    limits: Limits,
    tokens: &'a [Token<'t>],
) -> Result<(Seq<T>, &'a [Token<'t>]), ReadError>
    ensures { Gives (λ r. (r.0, r.1.now)) result (listed_at (T.reads limits) tokens.now) }
{
    let (first, rest) = T::read(alloc, limits, tokens)?;
    let mut parts = Vec::new(alloc);
    parts.push(first)?;
    let rest = more_parts(alloc, limits, &mut parts, rest)?;
    Ok((Seq::from_vec(parts), rest))
}

impl Part for Txt {
    ghost use Rattle.gx_grammar.specs.Tokens.{name_of};
    ghost use Rattle.gx_grammar.specs.Rules.{one_at};

    ghost reads = { λ limits. one_at (name_of limits) };

    fn read<'a, 't>(
        alloc: Global,
        limits: Limits,
        tokens: &'a [Token<'t>],
    ) -> Result<(Txt, &'a [Token<'t>]), ReadError> {
        read_one(alloc, limits, tokens)
    }
}

impl Part for Syn {
    ghost use Rattle.gx_grammar.specs.Machine.{expr_at};

    ghost reads = { expr_at };

    fn read<'a, 't>(
        alloc: Global,
        limits: Limits,
        tokens: &'a [Token<'t>],
    ) -> Result<(Syn, &'a [Token<'t>]), ReadError> {
        // Most values are numbers, so they are looked at here, and the steps stand apart.
        match lone_number(tokens) {
            Some(read) => Ok(read),
            None => expr_by_steps(alloc, limits, tokens),
        }
    }
}
