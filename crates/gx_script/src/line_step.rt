use gx_tree::Level;

/// The answer of a line that changes nothing in the store.
#[derive(Clone, Copy)]
pub enum Plain {
    Begin,
    Commit,
    Rollback,
}

/// What a line asks for (PostgreSQL manual 13.2 on blocks and levels).
#[derive(Clone, Copy)]
pub enum LineStep {
    /// The line is answered at once.
    Answer(Plain),
    /// The block has failed.
    InFailedBlock,
    /// The line has to stand in a block.
    NotInBlock,
    /// A block opens, whose transaction has this level.
    BeginBlock(Level),
    /// The block's transaction commits. The session waits for that.
    CommitBlock,
    /// The block's transaction aborts.
    RollbackBlock,
    /// A command, the only one of its transaction where it is `alone`. The session waits for it.
    Command { alone: bool },
}
