ghost use Rattle.std.specs.Prelude.{◌≡◌, ◌++◌, ◌∷◌, [], ℕ, IfOk, List, None, OnOk, Option, false, true};
ghost use Rattle.gx_groups.specs.Table.{is_held_up};
ghost use Rattle.gx_store.specs.Language.{IsScript};
ghost use Rattle.gx_store.specs.declared.run.Step.{Step};
ghost use Rattle.gx_agenda.specs.Queued.{AreQueued};
ghost use Rattle.gx_store.specs.declared.answer.StmtAnswer.{StmtAnswer};
ghost use Rattle.gx_store.specs.declared.mark.Mark.TheVariants.{Answer};
ghost use Rattle.gx_agenda.specs.Slotted.{AreAsTold, AreSlots, HasGone, HasTaken, is_of_slots};
ghost use Rattle.gx_agenda.specs.declared.slots.Slots.{Slots as TheSlots};

use crate::grouping::fresh_groups;
use crate::opening::{all_outside, ask_all, ask_answered, note_answers};
use crate::queue::Queue;
use crate::span::Span;
use crate::taking::through_mark;
use gx_groups::Groups;
use gx_ids::{Mem, SessionId};
use gx_script::Script;
use gx_store::{Mark, Opened, StepView};
use std::alloc::Global;

/// The slots of a script's groups where a run has led: who asks and who holds one, whose transactions are open, which sessions stand
/// outside a block, and of whom the step that is noted answers lines.
#[derive(Drop)]
pub struct Slots {
    pub groups: Groups,
    pub begun: Vec<Opened>,
    pub outside: Vec<bool>,
    pub answered: Span,
}

/// The slots of a run without steps, whose queue this is; none where the script has no groups.
pub fn slots_of(alloc: Global, script: &Script, queue: &Queue) -> Mem<Option<Slots>>
    requires language { IsScript script.now }
    requires queued { AreQueued script.now [] queue.now }
    ensures { IfOk result (AreSlots script.now []) }
{
    if script.groups.len() == 0 {
        return Ok(None);
    }
    let slots = Slots::new(alloc, script, queue)?;
    Ok(Some(slots))
}

/// A step was done, of which the queue knows, and so do the slots mark by mark.
pub fn note_slots(slots: &mut Option<Slots>, script: &Script, queue: &Queue, step: &StepView<'_>)
    requires { IsScript script.now }
    ensures { (steps : List Step) (was : Option TheSlots) → AreSlots script.now steps was → HasGone step.now.marks was slots.old
        → AreQueued script.now (steps ++ step.now ∷ []) queue.now → AreSlots script.now (steps ++ step.now ∷ []) slots.new }
{
    if let Some(slots) = slots {
        slots.note(script, queue, step.marks());
    }
}

// A line of a session is answered by a mark.
pub(crate) fn note_answered(slots: &mut Option<Slots>, session: SessionId)
    ensures { (number : ℕ) (reply : StmtAnswer) → HasGone (Answer session number reply ∷ []) slots.old slots.new }
{
    if let Some(slots) = slots {
        slots.answered.add(session);
    }
}

// Whether a transaction begins or ends by a mark.
pub(crate) fn is_told(mark: &Mark) -> bool
    ensures { result ≡ is_of_slots mark.now }
{
    match mark {
        Mark::Start { .. } | Mark::Commit { .. } | Mark::Abort { .. } => true,
        _ => false,
    }
}

// Slots are taken and given back as a mark says by which a transaction begins or ends.
pub(crate) fn note_told(slots: &mut Option<Slots>, mark: &Mark) -> Mem<()>
    requires { is_of_slots mark.now ≡ true }
    ensures { OnOk result (HasGone (mark.now ∷ []) slots.old slots.new) }
{
    match slots {
        Some(slots) => through_mark(&mut slots.groups, &mut slots.begun, mark),
        None => Ok(()),
    }
}

impl Slots {
    // The slots of a run without steps.
    fn new(alloc: Global, script: &Script, queue: &Queue) -> Mem<Slots>
        requires language { IsScript script.now }
        requires queued { AreQueued script.now [] queue.now }
        ensures { IfOk result (AreAsTold script.now []) }
    {
        let mut groups = fresh_groups(alloc, script)?;
        let outside = all_outside(alloc, script.sessions.len())?;
        ask_all(&mut groups, script, queue, outside.as_slice());
        Ok(Slots {
            groups,
            begun: Vec::new(alloc),
            outside,
            answered: Span::none(),
        })
    }

    /// Whether a session asks for a slot and may not take one yet.
    pub fn is_held_up(&self, session: SessionId) -> bool
        ensures { result ≡ is_held_up self.now.groups session }
    {
        !self.groups.may(session) && self.groups.asks(session)
    }

    // These are the marks of a step, and the slots were taken and given back as they say.
    fn note(&mut self, script: &Script, queue: &Queue, marks: &[Mark])
        requires { IsScript script.now }
        ensures { (steps : List Step) (step : Step) (was : TheSlots) → step.marks ≡ marks.now → AreAsTold script.now steps was
            → HasTaken marks.now was self.old → AreQueued script.now (steps ++ step ∷ []) queue.now → AreAsTold script.now (steps ++ step ∷ []) self.new }
    {
        if self.answered.past > 0 {
            self.note_answers(script, queue, marks);
        }
    }

    // Some of them answer lines.
    fn note_answers(&mut self, script: &Script, queue: &Queue, marks: &[Mark])
        requires { IsScript script.now }
        ensures { (steps : List Step) (step : Step) (was : TheSlots) → step.marks ≡ marks.now → AreAsTold script.now steps was
            → HasTaken marks.now was self.old → AreQueued script.now (steps ++ step ∷ []) queue.now → AreAsTold script.now (steps ++ step ∷ []) self.new }
    {
        let answered = self.answered;
        self.answered = Span::none();
        note_answers(&mut self.outside, script, queue, marks);
        ask_answered(
            &mut self.groups,
            script,
            queue,
            self.outside.as_slice(),
            marks,
            answered,
        );
    }
}
