// Whether a word was received by a point.
ghost use Rattle.std.specs.Prelude.{◌≡◌, ◌↔◌, ℕ, IsTrue};
ghost use Rattle.gx_store.specs.declared.event.Event.TheVariants.{Receive};
ghost use Rattle.gx_legal.specs.Moments.{point_of};
ghost use Rattle.gx_legal.specs.Words.{HasHeard, HasHeardBefore, IsHeardAt, IsHeardFrom, IsHeardOf, ReceivesAt};

use crate::moment::Moment;
use crate::word::{Report, delivers, says};
use gx_store::{Event, Mark, Step};

fn is_receipt(event: Event, report: Report, number: u64) -> bool
    ensures { IsTrue result ↔ (event ≡ Receive report.from report.to number) }
{
    match event {
        Event::Receive {
            from,
            to,
            number: received,
        } => from == report.from && to == report.to && received == number,
        _ => false,
    }
}

// Whether one of the steps receives the report's message, which has this number.
fn is_received(steps: &[Step], report: Report, number: u64) -> bool
    ensures { IsTrue result ↔ ((place : ℕ) × ReceivesAt report.from report.to number steps.now place) }
{
    for step in steps {
        if is_receipt(step.event, report, number) {
            return true;
        }
    }
    false
}

// Whether the mark sends the word, and one of the later steps receives it.
fn is_heard_of(mark: &Mark, report: Report, later: &[Step]) -> bool
    ensures { IsTrue result ↔ IsHeardOf report.gxid report.word report.from report.to later.now mark.now }
{
    match mark {
        Mark::Sent {
            to,
            number,
            message,
        } => *to == report.to
            && says(message, report.gxid, report.word)
            && is_received(later, report, *number),
        _ => false,
    }
}

fn is_heard_among(marks: &[Mark], report: Report, later: &[Step]) -> bool
    ensures { IsTrue result ↔ ((place : ℕ) × IsHeardAt report.gxid report.word report.from report.to later.now marks.now place) }
{
    for mark in marks {
        if is_heard_of(mark, report, later) {
            return true;
        }
    }
    false
}

fn is_heard_from(step: &Step, report: Report, later: &[Step]) -> bool
    ensures { IsTrue result ↔ IsHeardFrom report.gxid report.word report.from report.to later.now step.now }
{
    step.stamp.node == report.from && is_heard_among(step.marks.as_slice(), report, later)
}

// In an earlier step, from the last on: most words are asked for soon after they are sent.
fn has_heard_before(steps: &[Step], report: Report) -> bool
    ensures { IsTrue result ↔ HasHeardBefore report.gxid report.word report.from report.to steps.now }
{
    for number in (0..steps.len()).rev() {
        if is_heard_from(&steps[number], report, &steps[number + 1..]) {
            return true;
        }
    }
    false
}

/// Whether the point's own step receives the word, or it was received in an earlier step.
pub fn has_heard(moment: &Moment<'_, '_>, report: Report) -> bool
    ensures { IsTrue result ↔ HasHeard report.gxid report.word report.from report.to (point_of moment.now) }
{
    delivers(moment.steps, moment.event, report) || has_heard_before(moment.steps, report)
}
