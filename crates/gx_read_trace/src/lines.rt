// The lines of bytes, one after another.
ghost use Rattle.std.specs.Prelude.{◌≡◌, ◌<◌, ◌≤◌, ◌+◌, ◌^◌, length, MatchOption};
ghost use Rattle.std.specs.List.{prefix_len};
ghost use Rattle.gx_trace.specs.Lawful.{IsLine};
ghost use Rattle.gx_read_trace.specs.Rests as of;
ghost use Rattle.gx_read_trace.specs.declared.fault.TraceFault.TheVariants as fault;

use crate::fault::TraceFault;
use gx_trace::Cursor;
use memchr::memchr;
use std::marker::Model;

fn line_len(bytes: &[u8]) -> usize
    ensures value { result ≡ prefix_len of.is_within bytes.now }
    ensures within { result ≤ length bytes.now }
{
    match memchr(b'\n', bytes) {
        Some(len) => len,
        None => bytes.len(),
    }
}

/// The first line without its line feed, and what stands behind that; none where no line feed stands.
pub fn first_line(bytes: &[u8]) -> Option<(&[u8], &[u8])>
    ensures { MatchOption result (IsLine bytes.now) (λ r. of.BeginWith bytes.now r.0.now r.1.now) }
{
    let (line, rest) = bytes.split_at(line_len(bytes));
    match rest.split_first() {
        Some((_feed, rest)) => Some((line, rest)),
        None => None,
    }
}

/// The bytes that are still to be read, and how many lines of them have been.
#[derive(Drop)]
pub struct Lines<'a> {
    left: &'a [u8],
    taken: u64,
}

impl<'a> Model for Lines<'a> {
    ghost Value = { of.Rest };

    ghost view = { λ l. record { left = l.left.now; taken = l.taken } };

    ghost invariant = { λ l. l.taken + length l.left.now < 2 ^ 63 };
}

impl<'a> Lines<'a> {
    /// At the front of these bytes.
    pub fn new(left: &'a [u8]) -> Lines<'a>
        ensures { result ≡ record { left = left.now; taken = 0 } }
    {
        Lines { left, taken: 0 }
    }

    /// Whether two blanks stand here.
    pub fn begins_with_blanks(&self) -> bool
        ensures { result ≡ of.begins_with_blanks self.now }
    {
        let mut cursor = Cursor::new(self.left);
        cursor.skip(b"  ").is_some()
    }

    /// That the line taken last is the one with which no text goes on.
    pub fn fault(&self) -> TraceFault
        ensures { result ≡ fault.NotATrace self.now.taken }
    {
        TraceFault::NotATrace(self.taken)
    }

    /// Takes the next line.
    #[tactic(auto, using(crate::proofs::Feeds::is_behind, crate::proofs::Feeds::none_there, crate::proofs::Feeds::shorter))]
    pub fn line(&mut self) -> Result<&'a [u8], TraceFault>
        ensures { of.IsTaken result self.old self.new }
    {
        match first_line(self.left) {
            Some((line, left)) => {
                self.left = left;
                self.taken += 1;
                Ok(line)
            }
            None => Err(TraceFault::NotATrace(self.taken + 1)),
        }
    }

    /// Asks that nothing is left.
    pub fn end(&self) -> Result<(), TraceFault>
        ensures { of.IsEnded result self.now }
    {
        if self.left.is_empty() {
            Ok(())
        } else {
            Err(TraceFault::NotATrace(self.taken + 1))
        }
    }
}
