use gx_ids::{Gxid, Node, Rid, Seq};
use gx_tree::OutRow;

/// The answer to a session's line. Rows of a statement are counted over all segments.
#[derive(Drop)]
pub enum StmtAnswer {
    Begin,
    Commit,
    Rollback,
    /// LOCK TABLE holds its lock.
    Locked,
    Inserted(u128),
    Updated(u128),
    Deleted(u128),
    Rows(Seq<OutRow>),
    /// The statement did nothing, and its transaction aborts, if it has one.
    Refused(Refused),
}

/// Why a statement is refused.
#[derive(Clone, Copy)]
pub enum Refused {
    /// At repeatable read, the row was changed by a transaction that committed after the snapshot.
    Serialization(Rid, Gxid),
    /// The detector's round cancelled the transaction.
    Victim(u64),
    /// A number that an i64 can't hold.
    Overflow,
    DivisionByZero,
    /// A statement before it in its block was refused.
    InFailedBlock,
    /// The node's journal failed to take an item of the transaction.
    JournalFault(Node),
    /// LOCK TABLE outside a block.
    NotInBlock,
    /// The segment has restarted since the transaction came there.
    Restarted(Node),
}
