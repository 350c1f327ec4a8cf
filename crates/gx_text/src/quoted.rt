ghost use Rattle.std.specs.Prelude.{◌≡◌, ◌++◌, OnOk};
ghost use Rattle.gx_text.specs.Quoted.{quoted, quoted_byte};

use crate::numbers::push_bytes;
use gx_ids::Mem;

// A byte between quotes: a quote is doubled.
fn push_quoted_byte(text: &mut Vec<u8>, byte: u8) -> Mem<()>
    ensures { OnOk result (text.new.items ≡ text.old.items ++ quoted_byte byte) }
{
    if byte == b'\'' {
        push_bytes(text, b"''")
    } else {
        push_bytes(text, &[byte])
    }
}

/// Adds a text in single quotes.
pub fn push_quoted(text: &mut Vec<u8>, bytes: &[u8]) -> Mem<()>
    ensures { OnOk result (text.new.items ≡ text.old.items ++ quoted bytes.now) }
{
    push_bytes(text, b"'")?;
    for byte in bytes {
        push_quoted_byte(text, *byte)?;
    }
    push_bytes(text, b"'")
}
