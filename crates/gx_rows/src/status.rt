/// What became of a transaction at one segment.
#[derive(Clone, Copy, PartialEq, Eq)]
pub enum LocalStatus {
    Running,
    Prepared,
    Committed,
    Aborted,
}
