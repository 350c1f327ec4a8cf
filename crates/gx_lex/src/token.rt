use crate::name::Name;
use crate::symbol::Symbol;
use crate::word::Word;
use gx_tree::Txt;

/// A token of a line. A number above 18446744073709551615 is `Number(None)`; `Bad` is a word with capitals that is
/// no keyword, or the rest of a line from a byte that begins no token or from a text without its end.
#[derive(Drop)]
pub enum Token<'a> {
    Word(Word),
    Name(Name<'a>),
    Number(Option<u64>),
    Text(Txt),
    Symbol(Symbol),
    Bad,
}
