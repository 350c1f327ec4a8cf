// Whether a segment has noted a fault, and said that the command failed.
ghost use Rattle.std.specs.Prelude.{◌≡◌, ◌↔◌, ℕ, IsTrue};
ghost use Rattle.gx_store.specs.declared.mark.Mark.TheVariants.{Fault};
ghost use Rattle.gx_store.specs.Refusals.{HearsCause, IsWord};
ghost use Rattle.gx_legal.specs.Causes.{HadNoted, IsHeardOf, IsSaidBy, IsTold, NotesIn, NotesInStep, StandsAt};
ghost use Rattle.gx_legal.specs.Moments.{point_of};

use crate::firsts::first_failed;
use crate::images::is_same_image;
use crate::moment::Moment;
use crate::word::{Report, Word, delivers};
use gx_ids::{Cid, Gxid, Node, Rid};
use gx_msg::Cause;
use gx_store::{Event, Mark, Step};
use gx_tree::{Row, Stmt};

/// An evaluation of a command that faulted: on which image of which row.
#[derive(Clone, Copy)]
pub struct Evaluation<'a> {
    pub gxid: Gxid,
    pub cid: Cid,
    pub rid: Rid,
    pub image: &'a Option<Row>,
}

fn is_same(image: &Option<Row>, other: &Option<Row>) -> bool
    ensures { IsTrue result ↔ (image.now ≡ other.now) }
{
    let is = is_same_image(image, other);
    is
}

fn is_note(mark: &Mark, evaluation: Evaluation<'_>) -> bool
    ensures { IsTrue result ↔ (mark.now ≡ Fault evaluation.entry.gxid evaluation.entry.cid evaluation.entry.rid evaluation.entry.image.now) }
{
    match mark {
        Mark::Fault {
            gxid,
            cid,
            rid,
            image,
        } => *gxid == evaluation.gxid
            && *cid == evaluation.cid
            && *rid == evaluation.rid
            && is_same(image, evaluation.image),
        _ => false,
    }
}

fn is_note_among(marks: &[Mark], evaluation: Evaluation<'_>) -> bool
    ensures { IsTrue result ↔ ((place : ℕ) × StandsAt (Fault evaluation.entry.gxid evaluation.entry.cid evaluation.entry.rid evaluation.entry.image.now) marks.now place) }
{
    for mark in marks {
        if is_note(mark, evaluation) {
            return true;
        }
    }
    false
}

fn is_note_in(step: &Step, evaluation: Evaluation<'_>, node: Node) -> bool
    ensures { IsTrue result ↔ NotesIn evaluation.entry.gxid evaluation.entry.cid evaluation.entry.rid evaluation.entry.image.now node step.now }
{
    step.stamp.node == node && is_note_among(step.marks.as_slice(), evaluation)
}

fn has_noted(steps: &[Step], evaluation: Evaluation<'_>, node: Node) -> bool
    ensures { IsTrue result ↔ ((place : ℕ) × NotesInStep evaluation.entry.gxid evaluation.entry.cid evaluation.entry.rid evaluation.entry.image.now node steps.now place) }
{
    for step in steps {
        if is_note_in(step, evaluation, node) {
            return true;
        }
    }
    false
}

// Whether the segment had noted it when it first sent FAILED of the command, in a step before the moment's.
fn had_noted(moment: &Moment<'_, '_>, evaluation: Evaluation<'_>, segment: Node) -> bool
    ensures { IsTrue result ↔ HadNoted evaluation.entry.gxid evaluation.entry.cid evaluation.entry.rid evaluation.entry.image.now segment moment.now.steps.now }
{
    let Some(first) = first_failed(moment, evaluation.gxid, evaluation.cid, segment) else {
        return false;
    };
    let by_then = &moment.steps[..first.step + 1];
    has_noted(by_then, evaluation, segment)
}

/// Whether the point's step receives FAILED of the command from the segment, for this cause.
pub fn hears_cause(
    moment: &Moment<'_, '_>,
    gxid: Gxid,
    cid: Cid,
    reason: Cause,
    segment: Node,
) -> bool
    ensures { IsTrue result ↔ HearsCause (point_of moment.now) segment gxid cid reason }
{
    let report = Report {
        gxid,
        word: Word::FailedFor(cid, reason),
        from: segment,
        to: Node(0),
    };
    delivers(moment.steps, moment.event, report)
}

// The step receives it from a segment that had noted the fault.
fn is_word(moment: &Moment<'_, '_>, evaluation: Evaluation<'_>, reason: Cause) -> bool
    ensures { IsTrue result ↔ IsWord (point_of moment.now) evaluation.entry.gxid evaluation.entry.cid evaluation.entry.rid evaluation.entry.image.now reason }
{
    let Event::Receive { from, .. } = moment.event else {
        return false;
    };
    hears_cause(moment, evaluation.gxid, evaluation.cid, reason, from)
        && had_noted(moment, evaluation, from)
}

// The step receives it from some segment.
fn is_said(moment: &Moment<'_, '_>, gxid: Gxid, cid: Cid, reason: Cause) -> bool
    ensures { IsTrue result ↔ IsSaidBy (point_of moment.now) gxid cid reason }
{
    let Event::Receive { from, .. } = moment.event else {
        return false;
    };
    hears_cause(moment, gxid, cid, reason, from)
}

fn is_told(moment: &Moment<'_, '_>, evaluation: Evaluation<'_>, reason: Cause, noted: bool) -> bool
    ensures { IsTrue result ↔ IsTold noted (point_of moment.now) evaluation.entry.gxid evaluation.entry.cid evaluation.entry.rid evaluation.entry.image.now reason }
{
    if noted {
        is_word(moment, evaluation, reason)
    } else {
        is_said(moment, evaluation.gxid, evaluation.cid, reason)
    }
}

/// Whether the fault that is noted at this place is why the command is refused: an INSERT's in the point's own step, another's by FAILED
/// of a segment, which had noted the fault where that is asked for.
pub fn is_heard(
    moment: &Moment<'_, '_>,
    place: usize,
    stmt: &Stmt,
    evaluation: Evaluation<'_>,
    reason: Cause,
    noted: bool,
) -> bool
    ensures { IsTrue result ↔ IsHeardOf noted (point_of moment.now) place stmt.now evaluation.entry.gxid evaluation.entry.cid evaluation.entry.rid evaluation.entry.image.now reason }
{
    match stmt {
        Stmt::Insert(_, _) => moment.before.len() - moment.earlier.len() <= place,
        _ => is_told(moment, evaluation, reason, noted),
    }
}
