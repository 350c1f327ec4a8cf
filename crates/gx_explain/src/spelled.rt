// How signs are written.
use gx_lex::Symbol;

// The signs, by their numbers.
const SIGNS: [&[u8]; 16] = [
    b"(", b")", b"*", b",", b"+", b"-", b"/", b"%", b":", b";", b"=", b"<>", b"<", b"<=", b">",
    b">=",
];

/// How a sign is written.
pub fn sign_text(sign: Symbol) -> &'static [u8] {
    SIGNS[sign as usize]
}
