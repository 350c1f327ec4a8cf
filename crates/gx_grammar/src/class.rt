// Classes of tokens.
ghost use Rattle.std.specs.Prelude.{◌≡◌, IfOk};
ghost use Rattle.gx_grammar.specs.Rules.{Pick, one_at};
ghost use Rattle.gx_grammar.specs.Tokens as of;
ghost use Rattle.gx_grammar.specs.Code.{Gives, pick_of};
ghost use Rattle.gx_grammar.specs.declared.fault.Limits.{Limits};
ghost use Rattle.gx_lex.specs.declared.token.Token.{Token};

use crate::fault::{Fault, Limits, LineLimit, ReadError};
use gx_ids::Mem;
use gx_lex::{Name, Token};
use gx_tree::Txt;
use std::alloc::Global;

/// What a token is to a class of tokens.
#[derive(Drop)]
pub enum Picked<T> {
    Is(T),
    Isnt,
    Passes(LineLimit),
}

/// A class of tokens, each of which writes a value.
pub trait TokenClass: Sized + Drop {
    ghost class: { Limits → Token → Pick Self };

    /// The value that a token writes.
    fn pick(alloc: Global, limits: Limits, token: &Token) -> Mem<Picked<Self>>
        ensures { IfOk result (λ picked. pick_of picked ≡ class limits token.now) };
}

/// Reads the token that stands first, and hands back those behind it.
pub fn read_one<'a, 't, T: TokenClass>(
    alloc: Global,
    limits: Limits,
    tokens: &'a [Token<'t>],
) -> Result<(T, &'a [Token<'t>]), ReadError>
    ensures { Gives (λ r. (r.0, r.1.now)) result (one_at (T.class limits) tokens.now) }
{
    match tokens.split_first() {
        None => Err(ReadError::Fault(Fault::Syntax, tokens.len())),
        Some((token, rest)) => match T::pick(alloc, limits, token)? {
            Picked::Is(value) => Ok((value, rest)),
            Picked::Isnt => Err(ReadError::Fault(Fault::Syntax, tokens.len())),
            Picked::Passes(limit) => Err(ReadError::Fault(Fault::TooMany(limit), tokens.len())),
        },
    }
}

impl TokenClass for Txt {
    ghost use Rattle.gx_grammar.specs.Tokens.{name_of};

    ghost class = { name_of };

    fn pick(alloc: Global, limits: Limits, token: &Token) -> Mem<Picked<Txt>> {
        match token {
            Token::Name(name) => {
                if name.as_slice().len() <= limits.name {
                    Ok(Picked::Is(name.to_txt(alloc)?))
                } else {
                    Ok(Picked::Passes(LineLimit::Name))
                }
            }
            _ => Ok(Picked::Isnt),
        }
    }
}

/// The name that a token is, where it is short enough.
fn name_at<'t>(limits: Limits, token: &Token<'t>) -> Picked<Name<'t>>
    ensures { pick_of result ≡ of.name_of limits token.now }
{
    match token {
        Token::Name(name) => {
            if name.as_slice().len() <= limits.name {
                Picked::Is(name.again())
            } else {
                Picked::Passes(LineLimit::Name)
            }
        }
        _ => Picked::Isnt,
    }
}

/// Reads the name that stands first, and hands back the tokens behind it.
pub fn read_name<'a, 't>(
    limits: Limits,
    tokens: &'a [Token<'t>],
) -> Result<(Name<'t>, &'a [Token<'t>]), ReadError>
    ensures { Gives (λ r. (r.0, r.1.now)) result (one_at (of.name_of limits) tokens.now) }
{
    match tokens.split_first() {
        None => Err(ReadError::Fault(Fault::Syntax, tokens.len())),
        Some((token, rest)) => match name_at(limits, token) {
            Picked::Is(name) => Ok((name, rest)),
            Picked::Isnt => Err(ReadError::Fault(Fault::Syntax, tokens.len())),
            Picked::Passes(limit) => Err(ReadError::Fault(Fault::TooMany(limit), tokens.len())),
        },
    }
}
