use gx_ids::{Gxid, Node, SessionId};
use gx_msg::Envelope;

/// What happens at one node. A segment takes deliveries and resumptions alone.
#[derive(Drop)]
pub enum NodeEvent {
    Deliver { from: Node, envelope: Envelope },
    Resume(Gxid),
    Start(SessionId),
    End(SessionId),
    /// The awaited message to the segment is sent again, of a transaction, or, with `None`, of the detector's round.
    Resend(Node, Option<Gxid>),
    Round,
}
