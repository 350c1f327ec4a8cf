ghost use Rattle.std.specs.Prelude.{◌≡◌, IfOk};
ghost use Rattle.gx_ids.specs.Rid.{text_of};

use crate::ids::{Cid, Gxid};
use crate::memory::Mem;
use std::alloc::Global;

/// A row's identity, which an update keeps: the transaction and the command that inserted it, and the place of its
/// tuple among the command's VALUES, from 1.
#[derive(Clone, Copy, PartialEq, Eq, PartialOrd, Ord)]
pub struct Rid {
    pub gxid: Gxid,
    pub cid: Cid,
    pub ordinal: u32,
}

impl Rid {
    /// The printed form, as `12.1.3`.
    pub fn text(&self, alloc: Global) -> Mem<Vec<u8>>
        ensures { IfOk result (λ text. text.items ≡ text_of self.now) }
    {
        let gxid = self.gxid.0;
        let cid = self.cid.0;
        let ordinal = self.ordinal;
        let text = format!(in alloc; "{gxid}.{cid}.{ordinal}")?;
        Ok(text.into_bytes())
    }
}
