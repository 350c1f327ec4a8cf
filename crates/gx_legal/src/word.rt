// What a segment says of a transaction, and whether its word was sent and received.
ghost use Rattle.std.specs.Prelude.{◌≡◌, ◌↔◌, ◌≤◌, ℕ, IsTrue, length, take};
ghost use Rattle.gx_legal.specs.Moments.{point_of};
ghost use Rattle.gx_legal.specs.Words.{Delivers, HasHeard, IsReply, Says, Sends, SendsAt, SendsIn, SendsInStep};

use crate::moment::Moment;
use gx_ids::{Cid, Gxid, Node};
use gx_msg::{Cause, Message, Reply};
use gx_store::{Event, Mark, Step};

/// What a segment answers: a command is done, or can't be done, whatever the cause or for this one, or its journal has failed.
#[derive(Clone, Copy)]
pub enum Word {
    Done(Cid),
    Failed(Cid),
    FailedFor(Cid, Cause),
    Jfault,
}

/// A word of a transaction, on its way from one node to another.
#[derive(Clone, Copy)]
pub struct Report {
    pub gxid: Gxid,
    pub word: Word,
    pub from: Node,
    pub to: Node,
}

fn is_reply(reply: &Reply, word: Word) -> bool
    ensures { IsTrue result ↔ IsReply word reply.now }
{
    match (reply, word) {
        (Reply::Done { cid, .. }, Word::Done(done)) => *cid == done,
        (Reply::Failed { cid, .. }, Word::Failed(failed)) => *cid == failed,
        (Reply::Failed { cid, cause }, Word::FailedFor(failed, why)) => *cid == failed
            && *cause.get() == why,
        (Reply::Jfault, Word::Jfault) => true,
        _ => false,
    }
}

/// Whether the message says so of the transaction.
pub fn says(message: &Message, gxid: Gxid, word: Word) -> bool
    ensures { IsTrue result ↔ Says gxid word message.now }
{
    match message {
        Message::Answer(of, reply) => *of == gxid && is_reply(reply, word),
        _ => false,
    }
}

fn sends(mark: &Mark, report: Report, number: u64) -> bool
    ensures { IsTrue result ↔ Sends report.gxid report.word report.to number mark.now }
{
    match mark {
        Mark::Sent {
            to,
            number: sent,
            message,
        } => *to == report.to && *sent == number && says(message, report.gxid, report.word),
        _ => false,
    }
}

fn is_sent_among(marks: &[Mark], report: Report, number: u64) -> bool
    ensures { IsTrue result ↔ ((place : ℕ) × SendsAt report.gxid report.word report.to number marks.now place) }
{
    for mark in marks {
        if sends(mark, report, number) {
            return true;
        }
    }
    false
}

fn is_sent_in(step: &Step, report: Report, number: u64) -> bool
    ensures { IsTrue result ↔ SendsIn report.gxid report.word report.from report.to number step.now }
{
    step.stamp.node == report.from && is_sent_among(step.marks.as_slice(), report, number)
}

// The last step that sends it is the likeliest to be asked for.
fn is_sent(steps: &[Step], report: Report, number: u64) -> bool
    ensures { IsTrue result ↔ ((place : ℕ) × SendsInStep report.gxid report.word report.from report.to number steps.now place) }
{
    for place in (0..steps.len()).rev() {
        if is_sent_in(&steps[place], report, number) {
            return true;
        }
    }
    false
}

/// Whether the event behind these steps delivers the word.
pub fn delivers(steps: &[Step], event: Event, report: Report) -> bool
    ensures { IsTrue result ↔ Delivers report.gxid report.word report.from report.to steps.now event }
{
    match event {
        Event::Receive { from, to, number } => from == report.from
            && to == report.to
            && is_sent(steps, report, number),
        _ => false,
    }
}
