// The bytes of a line that are still to be read.
ghost use Rattle.std.specs.Prelude.{◌≡◌, ◌==◌, length};
ghost use Rattle.gx_trace.specs.Readers as of;

use std::marker::Model;

/// The bytes of a line that are still to be read. A method that reads goes behind what it has read; where it reads nothing, what is left
/// says nothing more, and who wants to try something else goes back by `go_to`.
#[derive(Drop)]
pub struct Cursor<'a> {
    left: &'a [u8],
}

impl<'a> Model for Cursor<'a> {
    ghost use Rattle.std.specs.Prelude.{List, ℕ};

    ghost Value = { List ℕ };

    ghost view = { λ c. c.left.now };
}

impl<'a> Cursor<'a> {
    /// At the front of these bytes.
    pub fn new(left: &'a [u8]) -> Cursor<'a>
        ensures { result ≡ left.now }
    {
        Cursor { left }
    }

    /// The bytes that are left.
    pub fn left(&self) -> &'a [u8]
        ensures { result.now ≡ self.now }
    {
        self.left
    }

    /// Whether nothing is left.
    pub fn is_at_end(&self) -> bool
        ensures { result ≡ (length self.now == 0) }
    {
        self.left.is_empty()
    }

    /// Goes on with these bytes.
    pub fn go_to(&mut self, left: &'a [u8])
        ensures { self.new ≡ left.now }
    {
        self.left = left;
    }

    /// Goes behind a word that stands here.
    pub fn skip(&mut self, word: &[u8]) -> Option<()>
        ensures { of.IsRead result self.new (of.word word.now self.old) }
    {
        match self.left.strip_prefix(word) {
            Some(left) => {
                self.left = left;
                Some(())
            }
            None => None,
        }
    }
}
