// Whether a journal has failed, and the coordinator knows of it.
ghost use Rattle.std.specs.Prelude.{◌≡◌, ◌↔◌, ℕ, Contains, IsTrue};
ghost use Rattle.gx_store.specs.declared.mark.Mark.TheVariants.{JournalFailed};
ghost use Rattle.gx_msg.specs.declared.message.Message.TheVariants.{Answer as AnswerOf};
ghost use Rattle.gx_msg.specs.declared.reply.Reply.TheVariants.{Jfault};
ghost use Rattle.gx_store.specs.Messages.{Receives};
ghost use Rattle.gx_store.specs.Refusals.{HasJournalFailed, the_coordinator};
ghost use Rattle.gx_legal.specs.Causes.{StandsAt};
ghost use Rattle.gx_legal.specs.Moments.{point_of};

use crate::moment::Moment;
use crate::word::{Report, Word, delivers};
use gx_ids::{Gxid, Node};
use gx_store::Mark;

fn is_failure(mark: &Mark, node: Node, gxid: Gxid) -> bool
    ensures { IsTrue result ↔ (mark.now ≡ JournalFailed node gxid) }
{
    match mark {
        Mark::JournalFailed {
            node: failing,
            gxid: of,
        } => *failing == node && *of == gxid,
        _ => false,
    }
}

fn is_failure_among(marks: &[Mark], node: Node, gxid: Gxid) -> bool
    ensures { IsTrue result ↔ ((place : ℕ) × StandsAt (JournalFailed node gxid) marks.now place) }
{
    for mark in marks {
        if is_failure(mark, node, gxid) {
            return true;
        }
    }
    false
}

fn has_failed(marks: &[Mark], node: Node, gxid: Gxid) -> bool
    ensures { IsTrue result ↔ Contains marks.now (JournalFailed node gxid) }
{
    let is = is_failure_among(marks, node, gxid);
    is
}

fn is_told(moment: &Moment<'_, '_>, node: Node, gxid: Gxid) -> bool
    ensures { IsTrue result ↔ Receives moment.now.steps.now moment.now.event node the_coordinator (AnswerOf gxid Jfault) }
{
    let report = Report {
        gxid,
        word: Word::Jfault,
        from: node,
        to: Node(0),
    };
    delivers(moment.steps, moment.event, report)
}

/// Whether the coordinator's journal failed in the point's step, or a segment's has failed and the step receives its word.
pub fn has_journal_failed(moment: &Moment<'_, '_>, gxid: Gxid, node: Node) -> bool
    ensures { IsTrue result ↔ HasJournalFailed (point_of moment.now) gxid node }
{
    if node.0 == 0 {
        has_failed(moment.earlier, node, gxid)
    } else {
        is_told(moment, node, gxid) && has_failed(moment.before, node, gxid)
    }
}
