// Numbers, in decimal without needless zeros.
ghost use Rattle.std.specs.Prelude.{◌≡◌, ◌^◌, codes};
ghost use Rattle.gx_trace.specs.Readers as of;
ghost use Rattle.gx_trace.specs.Fields.{count, dotted};

use crate::cursor::Cursor;

fn grown(number: u64, digit: u8) -> Option<u64>
    ensures { result ≡ of.grown (2 ^ 64) number digit }
{
    if number == 0 {
        return None;
    }
    number.checked_mul(10)?.checked_add(u64::from(digit))
}

// The digits that go on behind those of the number so far, and what is left behind them.
fn number_on(first: u64, left: &[u8]) -> Option<(u64, &[u8])>
    ensures { of.split_of result ≡ of.number_on (2 ^ 64) first left.now }
{
    let mut number = first;
    for (place, byte) in left.iter().enumerate() {
        if !(b'0'..=b'9').contains(byte) {
            return Some((number, &left[place..]));
        }
        number = grown(number, *byte - b'0')?;
    }
    Some((number, &left[left.len()..]))
}

fn number(left: &[u8]) -> Option<(u64, &[u8])>
    ensures { of.split_of result ≡ of.number left.now }
{
    match left {
        [first @ b'0'..=b'9', left @ ..] => number_on(u64::from(*first - b'0'), left),
        _ => None,
    }
}

fn vast_grown(number: u128, digit: u8) -> Option<u128>
    ensures { result ≡ of.grown (2 ^ 128) number digit }
{
    if number == 0 {
        return None;
    }
    number.checked_mul(10)?.checked_add(u128::from(digit))
}

// The same with 128 bits.
fn vast_number_on(first: u128, left: &[u8]) -> Option<(u128, &[u8])>
    ensures { of.split_of result ≡ of.number_on (2 ^ 128) first left.now }
{
    let mut number = first;
    for (place, byte) in left.iter().enumerate() {
        if !(b'0'..=b'9').contains(byte) {
            return Some((number, &left[place..]));
        }
        number = vast_grown(number, *byte - b'0')?;
    }
    Some((number, &left[left.len()..]))
}

fn vast_number(left: &[u8]) -> Option<(u128, &[u8])>
    ensures { of.split_of result ≡ of.number_to (2 ^ 128) left.now }
{
    match left {
        [first @ b'0'..=b'9', left @ ..] => vast_number_on(u128::from(*first - b'0'), left),
        _ => None,
    }
}

impl<'a> Cursor<'a> {
    /// Reads a number of 128 bits.
    pub fn vast_number(&mut self) -> Option<u128>
        ensures { of.IsRead result self.new (of.number_to (2 ^ 128) self.old) }
    {
        match vast_number(self.left()) {
            Some((number, left)) => {
                self.go_to(left);
                Some(number)
            }
            None => None,
        }
    }

    /// Reads a number of 64 bits.
    pub fn number(&mut self) -> Option<u64>
        ensures { of.IsRead result self.new (of.number self.old) }
    {
        match number(self.left()) {
            Some((number, left)) => {
                self.go_to(left);
                Some(number)
            }
            None => None,
        }
    }

    /// The same, as the fields of 64 bits have it.
    pub fn wide(&mut self) -> Option<u64>
        ensures { of.IsRead result self.new (of.number_below (2 ^ 64) self.old) }
    {
        self.number()
    }

    /// Reads a number of 32 bits.
    pub fn medium(&mut self) -> Option<u32>
        ensures { of.IsRead result self.new (of.number_below (2 ^ 32) self.old) }
    {
        let number = self.number()?;
        u32::try_from(number).ok()
    }

    /// Reads a number of 8 bits.
    pub fn small(&mut self) -> Option<u8>
        ensures { of.IsRead result self.new (of.number_below (2 ^ 8) self.old) }
    {
        let number = self.number()?;
        u8::try_from(number).ok()
    }

    /// Reads a number behind a blank.
    pub fn count(&mut self) -> Option<u64>
        ensures { of.IsRead result self.new (count self.old) }
    {
        self.skip(b" ")?;
        self.wide()
    }

    /// Reads a number behind a dot.
    pub fn dotted(&mut self) -> Option<u32>
        ensures { of.IsRead result self.new (dotted self.old) }
    {
        self.skip(b".")?;
        self.medium()
    }
}
