use gx_lex::Token;

/// The tokens that are left to a loop.
#[derive(Clone, Copy)]
pub struct Rest<'a, 't> {
    pub tokens: &'a [Token<'t>],
}
