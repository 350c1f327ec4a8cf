use gx_ids::{Cid, Duplicate, Gxid, Mem, Rid, Shared};
use gx_tree::Part;
use std::alloc::Global;

/// Why a segment can't do a command.
#[derive(Clone, Copy, PartialEq, Eq)]
pub enum Cause {
    /// The row was changed by a transaction that the command's snapshot doesn't see.
    Serialization(Rid, Gxid),
    Overflow,
    DivisionByZero,
}

/// What a segment answers.
#[derive(Drop)]
pub enum Reply {
    /// A command is done. `wrote` is true where its transaction has written at the segment, in this command or an
    /// earlier one. Only a SELECT has a part with something in it.
    Done {
        cid: Cid,
        wrote: bool,
        count: u64,
        part: Shared<Part>,
    },
    /// A command can't be done.
    Failed {
        cid: Cid,
        cause: Shared<Cause>,
    },
    Prepared,
    Committed,
    /// The journal failed before the transaction was promised or committed, which aborts it.
    Jfault,
    /// The journal failed for a transaction that is decided, and the message must come again.
    Again,
    Aborted,
    Forgotten,
    /// The segment has restarted since the transaction came there, and has neither promised nor committed it.
    Restarted,
}

impl Duplicate for Reply {
    fn copy(&self, alloc: Global) -> Mem<Reply> {
        match self {
            Reply::Done {
                cid,
                wrote,
                count,
                part,
            } => {
                let part = part.copy(alloc)?;
                Ok(Reply::Done {
                    cid: *cid,
                    wrote: *wrote,
                    count: *count,
                    part,
                })
            }
            Reply::Failed { cid, cause } => {
                let cause = cause.copy(alloc)?;
                Ok(Reply::Failed { cid: *cid, cause })
            }
            Reply::Prepared => Ok(Reply::Prepared),
            Reply::Committed => Ok(Reply::Committed),
            Reply::Jfault => Ok(Reply::Jfault),
            Reply::Again => Ok(Reply::Again),
            Reply::Aborted => Ok(Reply::Aborted),
            Reply::Forgotten => Ok(Reply::Forgotten),
            Reply::Restarted => Ok(Reply::Restarted),
        }
    }
}
