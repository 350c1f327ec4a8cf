ghost use Rattle.std.specs.Prelude.{◌≡◌, IfOk};

use gx_ids::Mem;
use gx_tree::Txt;
use std::alloc::Global;
use std::marker::Model;

/// A name where it stands in a line. Contracts see it as its bytes.
#[derive(Drop)]
pub struct Name<'a> {
    bytes: &'a [u8],
}

impl<'a> Model for Name<'a> {
    ghost use Rattle.std.specs.Prelude.{ℕ, List};

    ghost Value = { List ℕ };

    ghost view = { λ name. name.bytes.now };
}

impl<'a> Name<'a> {
    /// The name that is these bytes.
    pub fn new(bytes: &'a [u8]) -> Name<'a>
        ensures { result ≡ bytes.now }
    {
        Name { bytes }
    }

    /// The bytes.
    pub fn as_slice(&self) -> &[u8]
        ensures { result.now ≡ self.now }
    {
        self.bytes
    }

    /// A copy of its own.
    pub fn to_txt(&self, alloc: Global) -> Mem<Txt>
        ensures { IfOk result (λ txt. txt ≡ self.now) }
    {
        Ok(Txt::from_vec(Vec::from_slice(alloc, self.bytes)?))
    }

    /// The same name once more.
    pub fn again(&self) -> Name<'a>
        ensures { result ≡ self.now }
    {
        Name { bytes: self.bytes }
    }
}
