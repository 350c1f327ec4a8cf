use gx_ids::Seq;
use gx_waits::LocalGraph;

/// How a run ended.
#[derive(Drop)]
pub enum End {
    /// No session is unfinished.
    Done,
    /// All turns were taken, and some session is unfinished.
    Turns,
    /// Turns are left and some session is unfinished, but nothing is enabled. It tells which waits are stuck: a graph for each
    /// node, from the coordinator on.
    Stuck(Seq<LocalGraph>),
}
