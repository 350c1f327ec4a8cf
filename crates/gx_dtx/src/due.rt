/// What an answer asks for.
#[derive(Clone, Copy)]
pub enum Due {
    /// Nothing, since it isn't awaited.
    Nothing,
    /// To wait for others.
    Wait,
    /// The decision, once all writers are prepared.
    Decision,
    /// The end by a commit.
    Commit,
    /// An abort, since the node's journal has failed.
    Abort,
    /// That it leaves the table, since everybody has forgotten it.
    Forgotten,
    /// That it leaves the table, since everybody has aborted it.
    Aborted,
}
