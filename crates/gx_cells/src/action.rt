use gx_ids::{Gxid, Node, SessionId};

/// What a node is asked to do.
#[derive(Clone, Copy)]
pub enum Action {
    /// To receive the next envelope from a node.
    Receive(Node),
    /// To let the least transaction go on whose wait is ready.
    Resume,
    /// To start a session's next line.
    Start(SessionId),
    /// To end a session that has no line left and an open block.
    End(SessionId),
    /// To send again what a segment hasn't answered, of a transaction or of the detector's round.
    Resend(Node, Option<Gxid>),
    /// To begin a round of the detector.
    Round,
}
