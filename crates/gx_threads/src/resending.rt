// Which transactions may await an answer, and messages that are sent again.
use gx_ids::{Gxid, Mem};
use gx_store::{Mark, Steps};
use std::alloc::Global;

// A transaction that has begun, and whether it has committed or aborted.
#[derive(Clone, Copy)]
struct Begun {
    gxid: Gxid,
    is_over: bool,
}

/// The transactions of the coordinator's steps that were looked at, without those of which no answer is awaited any more.
#[derive(Drop)]
pub struct Open {
    begun: Vec<Begun>,
    steps: usize,
}

impl Open {
    /// None, of no steps.
    pub fn new(alloc: Global) -> Open {
        Open {
            begun: Vec::new(alloc),
            steps: 0,
        }
    }

    /// Looks at the steps behind those that were looked at before.
    pub fn look(&mut self, steps: &Steps) -> Mem<()> {
        for place in self.steps..steps.len() {
            if let Some(step) = steps.get(place) {
                self.note_all(step.marks())?;
            }
        }
        self.steps = steps.len();
        Ok(())
    }

    fn note_all(&mut self, marks: &[Mark]) -> Mem<()> {
        for mark in marks {
            self.note(mark)?;
        }
        Ok(())
    }

    fn note(&mut self, mark: &Mark) -> Mem<()> {
        match mark {
            Mark::Start { gxid, session: _ } => self.begun.push(Begun {
                gxid: *gxid,
                is_over: false,
            })?,
            Mark::Commit { gxid } => self.end(*gxid),
            Mark::Abort { gxid } => self.end(*gxid),
            _ => {}
        }
        Ok(())
    }

    fn end(&mut self, gxid: Gxid) {
        for begun in &mut self.begun {
            if begun.gxid == gxid {
                begun.is_over = true;
            }
        }
    }

    /// How many there are.
    pub fn len(&self) -> usize {
        self.begun.len()
    }

    /// The one at a place.
    pub fn at(&self, place: usize) -> Option<Gxid> {
        let begun = self.begun.get(place)?;
        Some(begun.gxid)
    }

    /// Forgets the one at a place, if it is over. No answer is awaited of it, and none will be.
    pub fn forget(&mut self, place: usize) -> bool {
        match self.begun.get(place) {
            Some(begun) if begun.is_over => {
                self.begun.swap_remove(place);
                true
            }
            _ => false,
        }
    }
}
