use gx_ids::{Node, Seq, SessionId, Stamp};
use gx_store::{Event, Mark, StmtAnswer};
use gx_tree::{Row, Txt};

/// The answer to a line of a session, which is numbered from 1 within it.
#[derive(Drop)]
pub struct SeenAnswer {
    pub session: SessionId,
    pub number: u32,
    pub answer: StmtAnswer,
}

/// A mark, as far as its line shows it.
#[derive(Drop)]
pub enum SeenMark {
    /// All of a mark that is neither an answer nor a message.
    Whole(Mark),
    /// A message that was sent: its name and its numbers, as printed. What else it carries isn't printed.
    Sent { to: Node, number: u64, message: Txt },
    /// That a line was answered. What it was answered stands among the answers.
    Answer { session: SessionId, number: u32 },
}

/// An event with its marks, in order.
#[derive(Drop)]
pub struct SeenStep {
    pub stamp: Stamp,
    pub event: Event,
    pub marks: Seq<SeenMark>,
}

/// What the text and the trace of a run show that came to its end: all answers by session, the rows of each table in the order of
/// the script, without their identities, and the steps.
#[derive(Drop)]
pub struct Seen {
    pub answers: Seq<SeenAnswer>,
    pub tables: Seq<Seq<Row>>,
    pub steps: Seq<SeenStep>,
}
