// Reads tokens that are an expression, and nothing else.
ghost use Rattle.std.specs.Prelude.{◌≡◌, List};
ghost use Rattle.gx_grammar.specs.Grammar as of;
ghost use Rattle.gx_grammar.specs.Machine.{expr_at};
ghost use Rattle.gx_grammar.specs.Rules.{whole_at};
ghost use Rattle.gx_grammar.specs.Code.{Says, Judged};
ghost use Rattle.gx_grammar.specs.declared.syn.Syn.{Syn};

use crate::expr::expr;
use crate::fault::{Fault, Limits, ReadError};
use crate::syn::Syn;
use gx_lex::Token;
use std::alloc::Global;

fn whole(alloc: Global, limits: Limits, tokens: &[Token]) -> Result<Syn, ReadError>
    ensures { Says result (whole_at (expr_at limits) tokens.now) }
{
    let (tree, rest) = expr(alloc, limits, tokens)?;
    if rest.is_empty() {
        Ok(tree)
    } else {
        Err(ReadError::Fault(Fault::Syntax, rest.len()))
    }
}

/// Reads tokens that are an expression, and nothing else.
pub fn read_expr(alloc: Global, limits: Limits, tokens: &[Token]) -> Result<Syn, ReadError>
    // What is read is written so; a fault is the first token that can't continue a reading, or not within the limits.
    ensures verdict { Judged of.expr limits tokens.now result }
    // What is written so is read, unless memory runs out.
    ensures only { (tree : Syn) → of.expr limits tree tokens.now → Says result (Ok tree) }
{
    whole(alloc, limits, tokens)
}
