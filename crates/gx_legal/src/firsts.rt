// The first sending of a word.
ghost use Rattle.std.specs.Prelude.{◌≡◌, ◌↔◌, IsTrue};
ghost use Rattle.gx_store.specs.Refusals.{the_coordinator};
ghost use Rattle.gx_legal.specs.declared.word.Word.TheVariants.{Failed};
ghost use Rattle.gx_legal.specs.Firsts.{IsFirstAmong, IsFirstIn, IsFirstSending, SendsWord};

use crate::moment::Moment;
use crate::word::{Report, Word, says};
use gx_ids::{Cid, Gxid, Node};
use gx_store::{Mark, Step};

/// A sending: the places of its step and of its mark there, and how many marks there are before that step.
#[derive(Clone, Copy)]
pub struct Sending {
    pub step: usize,
    pub mark: usize,
    pub start: usize,
}

fn sends_word(mark: &Mark, report: Report) -> bool
    ensures { IsTrue result ↔ SendsWord report.gxid report.word report.to mark.now }
{
    match mark {
        Mark::Sent {
            to,
            number: _,
            message,
        } => *to == report.to && says(message, report.gxid, report.word),
        _ => false,
    }
}

fn first_among(marks: &[Mark], report: Report) -> Option<usize>
    ensures { IsFirstAmong report.gxid report.word report.to marks.now result }
{
    for place in 0..marks.len() {
        if sends_word(&marks[place], report) {
            return Some(place);
        }
    }
    None
}

fn first_in(step: &Step, report: Report) -> Option<usize>
    ensures { IsFirstIn report.gxid report.word report.from report.to step.now result }
{
    if step.stamp.node == report.from {
        first_among(step.marks.as_slice(), report)
    } else {
        None
    }
}

/// The first sending of the word by its node, in a step before the moment's.
pub fn first_sending(moment: &Moment<'_, '_>, report: Report) -> Option<Sending>
    ensures { IsFirstSending report.gxid report.word report.from report.to moment.now.steps.now result }
{
    let mut start = 0;
    for number in 0..moment.steps.len() {
        let step = &moment.steps[number];
        if let Some(mark) = first_in(step, report) {
            return Some(Sending {
                step: number,
                mark,
                start,
            });
        }
        start += step.marks.len();
    }
    None
}

/// The first FAILED of the command that the segment has sent, whatever its cause.
pub fn first_failed(moment: &Moment<'_, '_>, gxid: Gxid, cid: Cid, segment: Node) -> Option<Sending>
    ensures { IsFirstSending gxid (Failed cid) segment the_coordinator moment.now.steps.now result }
{
    let report = Report {
        gxid,
        word: Word::Failed(cid),
        from: segment,
        to: Node(0),
    };
    first_sending(moment, report)
}
