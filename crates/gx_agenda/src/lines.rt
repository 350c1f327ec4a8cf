// What a step says of lines and of slots, and of nothing else that is kept of a run.
ghost use Rattle.std.specs.Prelude.{◌+◌, ◌++◌, ◌∷◌, [], ℕ, List, OnOk};
ghost use Rattle.gx_ids.specs.declared.ids.SessionId.{SessionId as OneSession};
ghost use Rattle.gx_script.specs.declared.Line.{Line as OneLine};
ghost use Rattle.gx_script.specs.declared.Script.{Script};
ghost use Rattle.gx_store.specs.declared.run.Step.{Step};
ghost use Rattle.gx_store.specs.Marks.{answer_count};
ghost use Rattle.gx_agenda.specs.Moves.{AreFew};
ghost use Rattle.gx_agenda.specs.Queued.{AreCounted, AreQueued, AreQueuedBy};
ghost use Rattle.gx_agenda.specs.Slotted.{HasGone};

use crate::marking::answered_session;
use crate::queue::Queue;
use crate::slots::{Slots, is_told, note_answered, note_told};
use gx_ids::Mem;
use gx_store::{Mark, StepView};

// A step of the run was done.
pub(crate) fn note_lines(
    queue: &mut Queue,
    slots: &mut Option<Slots>,
    step: &StepView<'_>,
) -> Mem<()>
    ensures queue { OnOk result ((script : Script) (steps : List Step) → AreQueued script steps queue.old → AreCounted (steps ++ step.now ∷ []) → AreQueued script (steps ++ step.now ∷ []) queue.new) }
    ensures slots { OnOk result (HasGone step.now.marks slots.old slots.new) }
{
    queue.note_event(step.event())?;
    note_marks(queue, slots, step.marks())
}

fn note_marks(queue: &mut Queue, slots: &mut Option<Slots>, marks: &[Mark]) -> Mem<()>
    ensures queue { OnOk result ((lines : List OneLine) (started answered : OneSession → ℕ) → AreQueuedBy lines started answered queue.old
        → AreFew started → AreFew (λ s. answered s + answer_count s marks.now)
        → AreQueuedBy lines started (λ s. answered s + answer_count s marks.now) queue.new) }
    ensures slots { OnOk result (HasGone marks.now slots.old slots.new) }
{
    for mark in marks {
        note_mark(queue, slots, mark)?;
    }
    Ok(())
}

fn note_mark(queue: &mut Queue, slots: &mut Option<Slots>, mark: &Mark) -> Mem<()>
    ensures queue { OnOk result ((lines : List OneLine) (started answered : OneSession → ℕ) → AreQueuedBy lines started answered queue.old
        → AreFew started → AreFew (λ s. answered s + answer_count s (mark.now ∷ []))
        → AreQueuedBy lines started (λ s. answered s + answer_count s (mark.now ∷ [])) queue.new) }
    ensures slots { OnOk result (HasGone (mark.now ∷ []) slots.old slots.new) }
{
    match answered_session(mark) {
        Some(session) => {
            note_answered(slots, session);
            queue.count(session, 0, 1)
        }
        None => {
            if is_told(mark) {
                note_told(slots, mark)
            } else {
                Ok(())
            }
        }
    }
}
