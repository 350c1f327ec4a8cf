/// How far a transaction is, as everybody may know it.
#[derive(Clone, Copy)]
pub enum Status {
    /// Its commands run.
    Active,
    /// Its writers are asked to promise to commit.
    Preparing,
    /// Its writers are told to commit.
    Committing,
    /// Its participants are told to abort.
    Aborting,
    Ended,
}
