ghost use Rattle.std.specs.Prelude.{◌≡◌, ◌++◌, ◌∷◌, [], OnOk};
ghost use Rattle.std.specs.Fmt.{decimal, signed_decimal};

use gx_ids::Mem;
use itoa::{Buffer, Integer};

/// Adds one byte.
pub fn push_byte(text: &mut Vec<u8>, byte: u8) -> Mem<()>
    ensures { OnOk result (text.new.items ≡ text.old.items ++ byte ∷ []) }
{
    text.push(byte)?;
    Ok(())
}

/// Adds bytes as they are.
pub fn push_bytes(text: &mut Vec<u8>, bytes: &[u8]) -> Mem<()>
    ensures { OnOk result (text.new.items ≡ text.old.items ++ bytes.now) }
{
    text.extend_from_slice(bytes)?;
    Ok(())
}

// Adds a number as it is printed. It stays a call of its own, since a digit alone needs none of its buffer.
#[inline(never)]
fn push_printed<I: Integer>(text: &mut Vec<u8>, number: I) -> Mem<()>
    ensures { OnOk result (text.new.items ≡ text.old.items ++ I.text number) }
{
    let mut digits = Buffer::new();
    push_bytes(text, digits.format(number).as_bytes())
}

// Adds the digits of a number. Most have one.
#[tactic(auto, using(std::proofs::lemmas::Fmt::decimal_digit))]
fn push_digits(text: &mut Vec<u8>, number: u64) -> Mem<()>
    ensures { OnOk result (text.new.items ≡ text.old.items ++ decimal number) }
{
    if number < 10 {
        push_byte(text, b'0' + number as u8)
    } else {
        push_printed(text, number)
    }
}

/// Adds the decimal digits of a count.
pub fn push_count(text: &mut Vec<u8>, number: u128) -> Mem<()>
    ensures { OnOk result (text.new.items ≡ text.old.items ++ decimal number) }
{
    match u64::try_from(number) {
        Ok(number) => push_digits(text, number),
        Err(_) => push_printed(text, number),
    }
}

/// Adds the decimal digits of a whole number, behind its sign where it is negative.
pub fn push_integer(text: &mut Vec<u8>, number: i128) -> Mem<()>
    ensures { OnOk result (text.new.items ≡ text.old.items ++ signed_decimal number) }
{
    match u64::try_from(number) {
        Ok(number) => push_digits(text, number),
        Err(_) => push_printed(text, number),
    }
}
