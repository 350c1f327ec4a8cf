ghost use Rattle.std.specs.Prelude.{◌≡◌, ◌%◌, [], length, slice_get, IfNone};

use gx_ids::{Gxid, Node, SessionId};

/// What happens in one step, at one node.
#[derive(Clone, Copy)]
pub enum Event {
    /// The message of this number on the link between two nodes, one of them the coordinator, is delivered.
    Receive { from: Node, to: Node, number: u64 },
    /// A wait of the transaction ends at the node, since no lock stands against it any more.
    Resume { node: Node, gxid: Gxid },
    /// A session's next line starts.
    Start(SessionId),
    /// A session that has no line left leaves its open block, which aborts.
    End(SessionId),
    /// The awaited message is sent again, of a transaction, or, with `None`, of the detector's round.
    Resend { segment: Node, gxid: Option<Gxid> },
    /// The detector begins a round.
    Round,
    /// The segment loses all that it holds in memory, and rebuilds itself from its journal.
    Restart(Node),
}

/// The event that a word draws among these: the one at the word's remainder by their number. None where there is none.
pub fn drawn(events: &[Event], word: u64) -> Option<Event>
    ensures is { result ≡ slice_get events.now (word % length events.now) }
    ensures none { IfNone result (events.now ≡ []) }
{
    if events.is_empty() {
        return None;
    }
    Some(events[(word % events.len() as u64) as usize])
}
