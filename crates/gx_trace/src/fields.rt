// The fields of a line of a trace, each behind a blank.
ghost use Rattle.std.specs.Prelude.{◌≡◌};
ghost use Rattle.gx_trace.specs.Fields as of;
ghost use Rattle.gx_trace.specs.Readers.{IsRead, IsReaderOf, EndsNumber};
ghost use Rattle.gx_trace.specs.Lawful.{IsRid};
ghost use Rattle.gx_trace.specs.Texts.{rid_word};

use crate::cursor::Cursor;
use gx_ids::{Cid, Gxid, Node, Rid};

impl<'a> Cursor<'a> {
    /// Reads a transaction.
    pub fn gxid(&mut self) -> Option<Gxid>
        ensures { IsRead result self.new (of.gxid self.old) }
    {
        let number = self.count()?;
        Some(Gxid(number))
    }

    /// Reads a command's number.
    pub fn cid(&mut self) -> Option<Cid>
        ensures { IsRead result self.new (of.cid self.old) }
    {
        self.skip(b" ")?;
        let number = self.medium()?;
        Some(Cid(number))
    }

    /// Reads a node's number. Whether the script has such a node isn't asked.
    pub fn node(&mut self) -> Option<Node>
        ensures { IsRead result self.new (of.node self.old) }
    {
        self.skip(b" ")?;
        let number = self.small()?;
        Some(Node(number))
    }

    /// Reads a row's identity.
    pub fn rid(&mut self) -> Option<Rid>
        ensures { IsRead result self.new (of.rid self.old) }
    {
        let gxid = self.count()?;
        let cid = self.dotted()?;
        let ordinal = self.dotted()?;
        Some(Rid {
            gxid: Gxid(gxid),
            cid: Cid(cid),
            ordinal,
        })
    }
}

/// Rows' identities are read as they are printed.
pub fn rids_are_read()
    ensures { IsReaderOf rid_word IsRid EndsNumber of.rid }
{}
