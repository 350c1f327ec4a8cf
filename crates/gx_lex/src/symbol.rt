ghost use Rattle.std.specs.Prelude.{◌≡◌};
ghost use Rattle.gx_lex.specs.Symbols.{number_of, symbol_of};

/// A sign of the script language.
#[derive(Clone, Copy)]
pub enum Symbol {
    Open,
    Close,
    Star,
    Comma,
    Plus,
    Minus,
    Slash,
    Percent,
    Colon,
    Semicolon,
    Equal,
    NotEqual,
    Less,
    LessEqual,
    Greater,
    GreaterEqual,
}

impl Symbol {
    /// The sign's place among the signs.
    pub fn number(self) -> u8
        ensures { result ≡ number_of self }
    {
        match self {
            Symbol::Open => 0,
            Symbol::Close => 1,
            Symbol::Star => 2,
            Symbol::Comma => 3,
            Symbol::Plus => 4,
            Symbol::Minus => 5,
            Symbol::Slash => 6,
            Symbol::Percent => 7,
            Symbol::Colon => 8,
            Symbol::Semicolon => 9,
            Symbol::Equal => 10,
            Symbol::NotEqual => 11,
            Symbol::Less => 12,
            Symbol::LessEqual => 13,
            Symbol::Greater => 14,
            Symbol::GreaterEqual => 15,
        }
    }
}

/// The sign that is this byte alone and begins no longer one.
pub fn lone_symbol(byte: u8) -> Option<Symbol>
    ensures { result ≡ symbol_of byte }
{
    match byte {
        b'(' => Some(Symbol::Open),
        b')' => Some(Symbol::Close),
        b'*' => Some(Symbol::Star),
        b',' => Some(Symbol::Comma),
        b'+' => Some(Symbol::Plus),
        b'-' => Some(Symbol::Minus),
        b'/' => Some(Symbol::Slash),
        b'%' => Some(Symbol::Percent),
        b':' => Some(Symbol::Colon),
        b';' => Some(Symbol::Semicolon),
        b'=' => Some(Symbol::Equal),
        _ => None,
    }
}
