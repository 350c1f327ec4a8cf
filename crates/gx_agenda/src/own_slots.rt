ghost use Rattle.std.specs.Prelude.{◌≡◌, ◌++◌, ◌∷◌, [], List, IfOk, OnOk, is_some, true};
ghost use Rattle.gx_script.specs.declared.Script.{Script};
ghost use Rattle.gx_store.specs.Groups.{lets};
ghost use Rattle.gx_store.specs.Language.{IsScript};
ghost use Rattle.gx_store.specs.declared.event.Event.TheVariants.{Start};
ghost use Rattle.gx_store.specs.declared.run.Step.{Step};
ghost use Rattle.gx_agenda.specs.OwnSlots.{AreOwnSlots};

use crate::lines::note_lines;
use crate::queue::Queue;
use crate::slots::{Slots, note_slots, slots_of};
use gx_ids::{Mem, OutOfMemory, SessionId};
use gx_script::Script;
use gx_store::StepView;
use std::alloc::Global;

const MOST: u64 = 1 << 62;

/// The slots of a script's groups, told by steps without anything else of a run, and how much these have told.
#[derive(Drop)]
pub struct OwnSlots {
    pub queue: Queue,
    pub slots: Option<Slots>,
    pub told: u64,
}

impl OwnSlots {
    /// Those of no steps.
    pub fn new(alloc: Global, script: &Script) -> Mem<OwnSlots>
        requires { IsScript script.now }
        ensures { IfOk result (AreOwnSlots script.now []) }
    {
        let queue = Queue::new(alloc, script)?;
        let slots = slots_of(alloc, script, &queue)?;
        Ok(OwnSlots {
            queue,
            slots,
            told: 0,
        })
    }

    /// Whether the groups let a session's next line start.
    pub fn lets(&self, session: SessionId) -> bool
        ensures { (script : Script) (steps : List Step) → AreOwnSlots script steps self.now → result ≡ lets script steps (Start session) }
    {
        match &self.slots {
            Some(slots) => !slots.is_held_up(session),
            None => true,
        }
    }

    /// A step was done. It costs nothing where the script has no groups. Where 2^62 starts and marks were told no more are, which counts
    /// as want of memory.
    pub fn note(&mut self, script: &Script, step: &StepView<'_>) -> Mem<()>
        requires { IsScript script.now }
        ensures { OnOk result ((steps : List Step) → AreOwnSlots script.now steps self.old → AreOwnSlots script.now (steps ++ step.now ∷ []) self.new) }
    {
        if self.slots.is_some() {
            self.tell(script, step)
        } else {
            Ok(())
        }
    }

    // A step was done of a script with groups.
    fn tell(&mut self, script: &Script, step: &StepView<'_>) -> Mem<()>
        requires language { IsScript script.now }
        requires groups { is_some self.old.slots ≡ true }
        ensures { OnOk result ((steps : List Step) → AreOwnSlots script.now steps self.old → AreOwnSlots script.now (steps ++ step.now ∷ []) self.new) }
    {
        let count = step.marks().len() as u64;
        if count >= MOST || self.told >= MOST - count - 1 {
            return Err(OutOfMemory);
        }
        self.told = self.told + count + 1;
        note_lines(&mut self.queue, &mut self.slots, step)?;
        note_slots(&mut self.slots, script, &self.queue, step);
        Ok(())
    }
}
