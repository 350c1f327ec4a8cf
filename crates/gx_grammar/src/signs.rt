// Words and signs.
ghost use Rattle.std.specs.Prelude.{◌≡◌};
ghost use Rattle.gx_grammar.specs.Tokens as of;
ghost use Rattle.gx_grammar.specs.Rules.{one_at, marked, starts};
ghost use Rattle.gx_grammar.specs.Code.{Gives};

use crate::fault::{Fault, ReadError};
use gx_lex::{Symbol, Token, Word};

/// Whether the token is this keyword.
pub fn is_word(word: Word, token: &Token) -> bool
    ensures { result ≡ of.is_word word token.now }
{
    match token {
        Token::Word(other) => other.number() == word.number(),
        _ => false,
    }
}

/// Whether the token is this sign.
pub fn is_sign(sign: Symbol, token: &Token) -> bool
    ensures { result ≡ of.is_sign sign token.now }
{
    match token {
        Token::Symbol(other) => other.number() == sign.number(),
        _ => false,
    }
}

/// Whether the first token is this keyword.
pub fn begins_with_word(word: Word, tokens: &[Token]) -> bool
    ensures { result ≡ starts (of.is_word word) tokens.now }
{
    match tokens.first() {
        Some(token) => is_word(word, token),
        None => false,
    }
}

/// Whether the first token is this sign.
pub fn begins_with_sign(sign: Symbol, tokens: &[Token]) -> bool
    ensures { result ≡ starts (of.is_sign sign) tokens.now }
{
    match tokens.first() {
        Some(token) => is_sign(sign, token),
        None => false,
    }
}

/// The tokens behind this keyword, where it is the first.
pub fn read_word<'a, 't>(word: Word, tokens: &'a [Token<'t>]) -> Result<&'a [Token<'t>], ReadError>
    ensures { Gives (λ r. (tt, r.now)) result (one_at (marked (of.is_word word)) tokens.now) }
{
    match tokens.split_first() {
        None => Err(ReadError::Fault(Fault::Syntax, tokens.len())),
        Some((token, rest)) => {
            if is_word(word, token) {
                Ok(rest)
            } else {
                Err(ReadError::Fault(Fault::Syntax, tokens.len()))
            }
        }
    }
}

/// The tokens behind this sign, where it is the first.
pub fn read_sign<'a, 't>(
    sign: Symbol,
    tokens: &'a [Token<'t>],
) -> Result<&'a [Token<'t>], ReadError>
    ensures { Gives (λ r. (tt, r.now)) result (one_at (marked (of.is_sign sign)) tokens.now) }
{
    match tokens.split_first() {
        None => Err(ReadError::Fault(Fault::Syntax, tokens.len())),
        Some((token, rest)) => {
            if is_sign(sign, token) {
                Ok(rest)
            } else {
                Err(ReadError::Fault(Fault::Syntax, tokens.len()))
            }
        }
    }
}
