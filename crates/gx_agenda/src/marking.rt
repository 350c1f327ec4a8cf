// What a step says to all that is kept of a run, in one walk through its marks.
ghost use Rattle.std.specs.Prelude.{◌≡◌, ◌<◌, ◌≤◌, ◌+◌, ◌++◌, ◌∷◌, [], ℕ, List, OnOk};
ghost use Rattle.std.specs.Option.{option_copied};
ghost use Rattle.gx_ids.specs.declared.ids.Node.{Node as OneNode};
ghost use Rattle.gx_ids.specs.declared.ids.SessionId.{SessionId as OneSession};
ghost use Rattle.gx_script.specs.declared.Line.{Line as OneLine};
ghost use Rattle.gx_script.specs.declared.Script.{Script};
ghost use Rattle.gx_store.specs.declared.run.Step.{Step};
ghost use Rattle.gx_store.specs.Marks.{answer_count};
ghost use Rattle.gx_store.specs.Ordered.{sent_count};
ghost use Rattle.gx_store.specs.Schedule.{asked_by};
ghost use Rattle.gx_store.specs.Waits.{waits_from};
ghost use Rattle.gx_waits.specs.declared.claim.Claim.{Claim as OneClaim};
ghost use Rattle.gx_agenda.specs.declared.request.Request.{Request as OneRequest};
ghost use Rattle.gx_agenda.specs.Awaited.{AreAsked, AreWaits, IsIndexed, IsTold, awaited_at};
ghost use Rattle.gx_agenda.specs.Following.{Follows};
ghost use Rattle.gx_agenda.specs.Moves.{AreFew, session_answered};
ghost use Rattle.gx_agenda.specs.Queued.{AreCounted, AreQueued, AreQueuedBy};
ghost use Rattle.gx_agenda.specs.Quiet.{AreQuiet};
ghost use Rattle.gx_agenda.specs.Slotted.{HasGone};

use crate::asked::Asked;
use crate::queue::Queue;
use crate::quiet::Quiet;
use crate::slots::{Slots, is_told, note_answered, note_told};
use gx_ids::{Mem, Node, SessionId};
use gx_msg::Message;
use gx_store::{Mark, StepView};

/// A step of the run was done. If it is the coordinator's, `told` is the message that its event received, if it received one. Where
/// memory runs out, what is kept is no longer known.
pub fn note_step(
    quiet: &mut Quiet,
    queue: &mut Queue,
    asked: &mut Asked,
    slots: &mut Option<Slots>,
    step: &StepView<'_>,
    told: Option<&Message>,
) -> Mem<()>
    ensures quiet { OnOk result ((script : Script) (steps : List Step) → AreQuiet script steps quiet.old → AreQuiet script (steps ++ step.now ∷ []) quiet.new) }
    ensures queue { OnOk result ((script : Script) (steps : List Step) → AreQueued script steps queue.old → AreCounted (steps ++ step.now ∷ []) → AreQueued script (steps ++ step.now ∷ []) queue.new) }
    ensures asked { OnOk result ((steps : List Step) → AreAsked steps asked.old → IsTold steps step.now (option_copied told.entry) → AreAsked (steps ++ step.now ∷ []) asked.new) }
    ensures slots { OnOk result (HasGone step.now.marks slots.old slots.new) }
{
    queue.note_event(step.event())?;
    note_marks(quiet, queue, asked, slots, step, told)
}

// What the step did besides its event.
fn note_marks(
    quiet: &mut Quiet,
    queue: &mut Queue,
    asked: &mut Asked,
    slots: &mut Option<Slots>,
    step: &StepView<'_>,
    told: Option<&Message>,
) -> Mem<()>
    ensures quiet { OnOk result ((script : Script) (steps : List Step) → AreQuiet script steps quiet.old → AreQuiet script (steps ++ step.now ∷ []) quiet.new) }
    ensures queue { OnOk result ((lines : List OneLine) (started answered : OneSession → ℕ) → AreQueuedBy lines started answered queue.old
        → AreFew started → AreFew (λ s. answered s + answer_count s step.now.marks)
        → AreQueuedBy lines started (λ s. answered s + answer_count s step.now.marks) queue.new) }
    ensures asked { OnOk result ((steps : List Step) → AreAsked steps asked.old → IsTold steps step.now (option_copied told.entry) → AreAsked (steps ++ step.now ∷ []) asked.new) }
    ensures slots { OnOk result (HasGone step.now.marks slots.old slots.new) }
{
    let node = step.stamp().node;
    if node == Node(0) {
        asked.hear(step, told);
        own_marks(quiet, queue, asked, slots, step.marks())
    } else {
        quiet.sent_by(node);
        their_marks(queue, asked, slots, step.marks())
    }
}

// The coordinator's step made these marks.
fn own_marks(
    quiet: &mut Quiet,
    queue: &mut Queue,
    asked: &mut Asked,
    slots: &mut Option<Slots>,
    marks: &[Mark],
) -> Mem<()>
    ensures from { quiet.new.from ≡ quiet.old.from }
    ensures most { quiet.new.to ≤ quiet.old.to }
    ensures none { OnOk result ((segment : OneNode) → 0 < segment.0 → segment.0 ≤ quiet.new.to → sent_count segment marks.now ≡ 0) }
    ensures queue { OnOk result ((lines : List OneLine) (started answered : OneSession → ℕ) → AreQueuedBy lines started answered queue.old
        → AreFew started → AreFew (λ s. answered s + answer_count s marks.now)
        → AreQueuedBy lines started (λ s. answered s + answer_count s marks.now) queue.new) }
    ensures asked { OnOk result (Follows (λ segment g was. asked_by segment g was marks.now) asked.old asked.new) }
    ensures waits { OnOk result ((standing : OneNode → List OneClaim) → AreWaits standing asked.old → AreWaits (λ node. waits_from node (standing node) marks.now) asked.new) }
    ensures due { OnOk result (IsIndexed asked.old → IsIndexed asked.new) }
    ensures slots { OnOk result (HasGone marks.now slots.old slots.new) }
{
    for mark in marks {
        own_mark(quiet, queue, asked, slots, mark)?;
    }
    Ok(())
}

fn own_mark(
    quiet: &mut Quiet,
    queue: &mut Queue,
    asked: &mut Asked,
    slots: &mut Option<Slots>,
    mark: &Mark,
) -> Mem<()>
    ensures from { quiet.new.from ≡ quiet.old.from }
    ensures most { quiet.new.to ≤ quiet.old.to }
    ensures none { (segment : OneNode) → 0 < segment.0 → segment.0 ≤ quiet.new.to → sent_count segment (mark.now ∷ []) ≡ 0 }
    ensures queue { OnOk result ((lines : List OneLine) (started answered : OneSession → ℕ) → AreQueuedBy lines started answered queue.old
        → AreFew started → AreFew (λ s. answered s + answer_count s (mark.now ∷ []))
        → AreQueuedBy lines started (λ s. answered s + answer_count s (mark.now ∷ [])) queue.new) }
    ensures asked { OnOk result (Follows (λ segment g was. asked_by segment g was (mark.now ∷ [])) asked.old asked.new) }
    ensures waits { OnOk result ((standing : OneNode → List OneClaim) → AreWaits standing asked.old → AreWaits (λ node. waits_from node (standing node) (mark.now ∷ [])) asked.new) }
    ensures due { OnOk result (IsIndexed asked.old → IsIndexed asked.new) }
    ensures slots { OnOk result (HasGone (mark.now ∷ []) slots.old slots.new) }
{
    match answered_session(mark) {
        Some(session) => {
            note_answered(slots, session);
            queue.count(session, 0, 1)
        }
        None => own_other(quiet, asked, slots, mark),
    }
}

// A mark that answers no line.
fn own_other(
    quiet: &mut Quiet,
    asked: &mut Asked,
    slots: &mut Option<Slots>,
    mark: &Mark,
) -> Mem<()>
    requires { session_answered mark.now ≡ None }
    ensures from { quiet.new.from ≡ quiet.old.from }
    ensures most { quiet.new.to ≤ quiet.old.to }
    ensures none { (segment : OneNode) → 0 < segment.0 → segment.0 ≤ quiet.new.to → sent_count segment (mark.now ∷ []) ≡ 0 }
    ensures asked { OnOk result (Follows (λ segment g was. asked_by segment g was (mark.now ∷ [])) asked.old asked.new) }
    ensures waits { OnOk result ((standing : OneNode → List OneClaim) → AreWaits standing asked.old → AreWaits (λ node. waits_from node (standing node) (mark.now ∷ [])) asked.new) }
    ensures due { OnOk result (IsIndexed asked.old → IsIndexed asked.new) }
    ensures slots { OnOk result (HasGone (mark.now ∷ []) slots.old slots.new) }
{
    match mark {
        Mark::Sent { to, message, .. } => {
            quiet.sent_to(*to);
            asked.sent(*to, message)
        }
        _ => {
            if is_told(mark) {
                note_told(slots, mark)
            } else if asked.is_passed_over(mark) {
                Ok(())
            } else {
                asked.note_wait(mark)
            }
        }
    }
}

// A segment's step made these marks.
fn their_marks(
    queue: &mut Queue,
    asked: &mut Asked,
    slots: &mut Option<Slots>,
    marks: &[Mark],
) -> Mem<()>
    ensures queue { OnOk result ((lines : List OneLine) (started answered : OneSession → ℕ) → AreQueuedBy lines started answered queue.old
        → AreFew started → AreFew (λ s. answered s + answer_count s marks.now)
        → AreQueuedBy lines started (λ s. answered s + answer_count s marks.now) queue.new) }
    ensures awaited { OnOk result ((r : OneRequest) → awaited_at asked.new r ≡ awaited_at asked.old r) }
    ensures waits { OnOk result ((standing : OneNode → List OneClaim) → AreWaits standing asked.old → AreWaits (λ node. waits_from node (standing node) marks.now) asked.new) }
    ensures due { OnOk result (IsIndexed asked.old → IsIndexed asked.new) }
    ensures slots { OnOk result (HasGone marks.now slots.old slots.new) }
{
    for mark in marks {
        their_mark(queue, asked, slots, mark)?;
    }
    Ok(())
}

fn their_mark(
    queue: &mut Queue,
    asked: &mut Asked,
    slots: &mut Option<Slots>,
    mark: &Mark,
) -> Mem<()>
    ensures queue { OnOk result ((lines : List OneLine) (started answered : OneSession → ℕ) → AreQueuedBy lines started answered queue.old
        → AreFew started → AreFew (λ s. answered s + answer_count s (mark.now ∷ []))
        → AreQueuedBy lines started (λ s. answered s + answer_count s (mark.now ∷ [])) queue.new) }
    ensures awaited { OnOk result ((r : OneRequest) → awaited_at asked.new r ≡ awaited_at asked.old r) }
    ensures waits { OnOk result ((standing : OneNode → List OneClaim) → AreWaits standing asked.old → AreWaits (λ node. waits_from node (standing node) (mark.now ∷ [])) asked.new) }
    ensures due { OnOk result (IsIndexed asked.old → IsIndexed asked.new) }
    ensures slots { OnOk result (HasGone (mark.now ∷ []) slots.old slots.new) }
{
    match answered_session(mark) {
        Some(session) => {
            note_answered(slots, session);
            queue.count(session, 0, 1)
        }
        None => {
            if is_told(mark) {
                note_told(slots, mark)
            } else if asked.is_passed_over(mark) {
                Ok(())
            } else {
                asked.note_wait(mark)
            }
        }
    }
}

pub(crate) fn answered_session(mark: &Mark) -> Option<SessionId>
    ensures { result ≡ session_answered mark.now }
{
    match mark {
        Mark::Answer { session, .. } => Some(*session),
        _ => None,
    }
}
