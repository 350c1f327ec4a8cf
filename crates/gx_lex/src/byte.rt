// Classes of bytes.
ghost use Rattle.std.specs.Prelude.{◌≡◌, Bool, get_or};
ghost use Rattle.gx_lex.specs.Lexing as of;

// Which bytes stand in words: the letters, the digits and the underscore.
const WORD_BYTES: [bool; 256] = [
    false, false, false, false, false, false, false, false, false, false, false, false, false,
    false, false, false, false, false, false, false, false, false, false, false, false, false,
    false, false, false, false, false, false, false, false, false, false, false, false, false,
    false, false, false, false, false, false, false, false, false, true, true, true, true, true,
    true, true, true, true, true, false, false, false, false, false, false, false, true, true,
    true, true, true, true, true, true, true, true, true, true, true, true, true, true, true, true,
    true, true, true, true, true, true, true, true, false, false, false, false, true, false, true,
    true, true, true, true, true, true, true, true, true, true, true, true, true, true, true, true,
    true, true, true, true, true, true, true, true, true, false, false, false, false, false, false,
    false, false, false, false, false, false, false, false, false, false, false, false, false,
    false, false, false, false, false, false, false, false, false, false, false, false, false,
    false, false, false, false, false, false, false, false, false, false, false, false, false,
    false, false, false, false, false, false, false, false, false, false, false, false, false,
    false, false, false, false, false, false, false, false, false, false, false, false, false,
    false, false, false, false, false, false, false, false, false, false, false, false, false,
    false, false, false, false, false, false, false, false, false, false, false, false, false,
    false, false, false, false, false, false, false, false, false, false, false, false, false,
    false, false, false, false, false, false, false, false, false, false, false, false, false,
    false, false, false, false, false, false, false, false, false, false,
];

pub fn is_blank(byte: u8) -> bool
    ensures { result ≡ of.is_blank byte }
{
    byte == 32 || byte == 9
}

pub fn is_capital(byte: u8) -> bool
    ensures { result ≡ of.is_capital byte }
{
    65 <= byte && byte <= 90
}

pub fn is_letter(byte: u8) -> bool
    ensures { result ≡ of.is_letter byte }
{
    (97 <= byte && byte <= 122) || is_capital(byte)
}

pub fn is_digit(byte: u8) -> bool
    ensures { result ≡ of.is_digit byte }
{
    48 <= byte && byte <= 57
}

pub fn is_word_byte(byte: u8) -> bool
    ensures { result ≡ of.is_word_byte byte }
{
    flag_of(&WORD_BYTES, byte)
}

// The flag that a table has for a byte.
fn flag_of(flags: &[bool; 256], byte: u8) -> bool
    ensures { (other : Bool) → result ≡ get_or flags.now byte other }
{
    flags[usize::from(byte)]
}

/// The letter in small.
pub fn small(byte: u8) -> u8
    ensures { result ≡ of.small byte }
{
    if is_capital(byte) { byte + 32 } else { byte }
}
