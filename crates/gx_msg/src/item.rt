ghost use Rattle.std.specs.Prelude.{◌≡◌};
ghost use Rattle.gx_msg.specs.declared.item.ItemFault.TheVariants.{OutOfMemory as NoMemory};

use gx_ids::{Duplicate, Gxid, Mem, OutOfMemory, Rid, Seq, Table};
use gx_tree::Row;
use std::alloc::Global;
use thiserror::Error;

/// What a node writes into its journal before it answers.
#[derive(Drop)]
pub enum JournalItem {
    /// A segment promises to commit these rows.
    Prepare(Gxid, Seq<Kept>),
    /// A segment commits these rows at once.
    Commit(Gxid, Seq<Kept>),
    /// A segment commits what it has promised.
    Finish(Gxid),
    /// The coordinator decides that a transaction commits.
    Decide(Gxid),
    /// A segment aborts what it has promised.
    Abort(Gxid),
    /// A segment forgets what it has committed.
    Forget(Gxid),
}

/// The last that a transaction wrote of a row. An image of `None` is a row that is gone.
#[derive(Drop)]
pub struct Kept {
    pub rid: Rid,
    pub table: Table,
    pub image: Option<Row>,
}

/// Why bytes aren't read as a journal item.
#[derive(Clone, Copy, Debug, Error)]
pub enum ItemFault {
    /// The place of the first byte with which no item's bytes go on, or the end where they would have to.
    #[error("not a journal item from byte {0}")]
    NotAnItem(u64),
    #[error("out of memory")]
    OutOfMemory,
}

impl From<OutOfMemory> for ItemFault {
    ghost from_gives = { λ _ result. result ≡ NoMemory };

    fn from(_fault: OutOfMemory) -> ItemFault {
        ItemFault::OutOfMemory
    }
}

impl Duplicate for JournalItem {
    fn copy(&self, alloc: Global) -> Mem<JournalItem> {
        match self {
            JournalItem::Prepare(gxid, kept) => {
                Ok(JournalItem::Prepare(*gxid, kept.copy(alloc)?))
            }
            JournalItem::Commit(gxid, kept) => Ok(JournalItem::Commit(*gxid, kept.copy(alloc)?)),
            JournalItem::Finish(gxid) => Ok(JournalItem::Finish(*gxid)),
            JournalItem::Decide(gxid) => Ok(JournalItem::Decide(*gxid)),
            JournalItem::Abort(gxid) => Ok(JournalItem::Abort(*gxid)),
            JournalItem::Forget(gxid) => Ok(JournalItem::Forget(*gxid)),
        }
    }
}

impl Duplicate for Kept {
    fn copy(&self, alloc: Global) -> Mem<Kept> {
        Ok(Kept {
            rid: self.rid,
            table: self.table,
            image: self.image.copy(alloc)?,
        })
    }
}
