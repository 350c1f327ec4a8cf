// What orders to segments ask for, and the replies that meet it.
ghost use Rattle.std.specs.Prelude.{◌≡◌, ◌==◌};
ghost use Rattle.gx_agenda.specs.Expected.{expected_of, gxid_of, is_command, is_command_met, is_met};
ghost use Rattle.gx_store.specs.Schedule.{is_about};

use gx_ids::{Cid, Gxid};
use gx_msg::{Message, Reply};

/// The answer that the last message asks for.
#[derive(Clone, Copy)]
pub enum Expected {
    /// What became of the command of this number.
    Command(Cid),
    /// The promise to commit.
    Promise,
    /// The commit by one phase.
    Commit,
    /// The commit by the second phase.
    SecondPhase,
    Abort,
    Forget,
}

impl Expected {
    /// Whether it is the answer to a command.
    pub fn is_command(self) -> bool
        ensures { result ≡ is_command self }
    {
        matches!(self, Expected::Command(_))
    }
}

// Whether a reply is the one that is expected.
pub(crate) fn is_met_by(expected: Expected, reply: &Reply) -> bool
    ensures { result ≡ is_met expected reply.now }
{
    match expected {
        Expected::Command(cid) => is_of_command(cid, reply),
        Expected::Promise => matches!(reply, Reply::Prepared | Reply::Jfault),
        Expected::Commit => matches!(reply, Reply::Committed | Reply::Jfault),
        Expected::SecondPhase => matches!(reply, Reply::Committed),
        Expected::Abort => matches!(reply, Reply::Aborted),
        Expected::Forget => matches!(reply, Reply::Forgotten),
    }
}

// Whether a reply says what became of the command.
fn is_of_command(cid: Cid, reply: &Reply) -> bool
    ensures { result ≡ is_command_met cid reply.now }
{
    match reply {
        Reply::Done { cid: done, .. } => *done == cid,
        Reply::Failed { cid: failed, .. } => *failed == cid,
        _ => false,
    }
}

// The transaction that an order to a segment is about. Other messages have none.
pub(crate) fn transaction_of(message: &Message) -> Option<Gxid>
    ensures { result ≡ gxid_of message.now }
{
    match message {
        Message::Exec { gxid, .. } => Some(*gxid),
        Message::Prepare(gxid) => Some(*gxid),
        Message::Commit(gxid) => Some(*gxid),
        Message::CommitPrepared(gxid) => Some(*gxid),
        Message::Abort(gxid) => Some(*gxid),
        Message::Forget(gxid) => Some(*gxid),
        _ => None,
    }
}

// Whether a message is an order about the transaction.
pub(crate) fn is_about(gxid: Gxid, message: &Message) -> bool
    ensures { result ≡ is_about gxid message.now }
{
    match transaction_of(message) {
        Some(other) => other == gxid,
        None => false,
    }
}

// The answer that an order to a segment asks for.
pub(crate) fn expected_answer(message: &Message) -> Expected
    ensures { result ≡ expected_of message.now }
{
    match message {
        Message::Exec { cid, .. } => Expected::Command(*cid),
        Message::Prepare(_) => Expected::Promise,
        Message::Commit(_) => Expected::Commit,
        Message::CommitPrepared(_) => Expected::SecondPhase,
        Message::Abort(_) => Expected::Abort,
        _ => Expected::Forget,
    }
}
