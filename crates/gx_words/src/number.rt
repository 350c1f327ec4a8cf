// A number in decimal digits.
ghost use Rattle.std.specs.Prelude.{◌≡◌, Some};
ghost use Rattle.gx_words.specs.Digits as of;
ghost use Rattle.gx_words.specs.Words.{fitting, number_behind, number_of};

// The number with a further digit.
fn grown(number: u64, digit: u8) -> Option<u64>
    ensures { result ≡ of.grown number digit }
{
    if digit < b'0' || digit > b'9' {
        return None;
    }
    number.checked_mul(10)?.checked_add((digit - b'0') as u64)
}

fn digits(digits: &[u8]) -> Option<u64>
    ensures { fitting result ≡ fitting (number_behind 0 digits.now) }
{
    let mut number = 0;
    for digit in digits {
        number = grown(number, *digit)?;
    }
    Some(number)
}

// A number of this type has 64 bits.
fn fit(number: u64) -> Option<u64>
    ensures { result ≡ fitting (Some number) }
{
    Some(number)
}

/// The number that a word writes.
pub fn number(word: &[u8]) -> Option<u64>
    ensures { result ≡ number_of word.now }
{
    if word.is_empty() || word.len() > 20 {
        return None;
    }
    fit(digits(word)?)
}
