use gx_ids::{Gxid, Mem, SessionId};
use gx_script::{Line, Script};
use gx_store::{Mark, Steps};
use std::alloc::Global;

// A transaction that may have something to be sent again.
#[derive(Clone, Copy)]
struct Open {
    gxid: Gxid,
    has_ended: bool,
}

// What a driver of nodes apart has seen: how many lines each session has started, up to which line of the file all have, and, in so
// many of the coordinator's steps, the transactions that have begun and may have something to be sent again.
#[derive(Drop)]
pub(crate) struct Seen {
    started: Vec<u32>,
    front: usize,
    open: Vec<Open>,
    steps: usize,
}

impl Seen {
    // Nothing yet.
    pub(crate) fn new(alloc: Global, script: &Script) -> Mem<Seen> {
        let started = vec![in alloc; 0; script.sessions.len()]?;
        Ok(Seen {
            started,
            front: 0,
            open: Vec::new(alloc),
            steps: 0,
        })
    }

    // Looks at the coordinator's steps that weren't seen before.
    pub(crate) fn look(&mut self, steps: &Steps) -> Mem<()> {
        for place in self.steps..steps.len() {
            self.note_marks(steps.at(place).marks())?;
        }
        self.steps = steps.len();
        Ok(())
    }

    fn note_marks(&mut self, marks: &[Mark]) -> Mem<()> {
        for mark in marks {
            match mark {
                Mark::Start { gxid, .. } => self.open.push(Open {
                    gxid: *gxid,
                    has_ended: false,
                })?,
                Mark::Commit { gxid } | Mark::Abort { gxid } => self.end(*gxid),
                _ => {}
            }
        }
        Ok(())
    }

    fn end(&mut self, gxid: Gxid) {
        for open in self.open.as_mut_slice() {
            if open.gxid == gxid {
                open.has_ended = true;
            }
        }
    }

    // The transaction at a place among those that may have something to be sent again, from the earliest.
    pub(crate) fn open_at(&self, place: usize) -> Option<Gxid> {
        match self.open.get(place) {
            Some(open) => Some(open.gxid),
            None => None,
        }
    }

    // How many transactions may have something to be sent again.
    pub(crate) fn open_count(&self) -> usize {
        self.open.len()
    }

    // Nothing is to be sent again now: of those that have ended nothing will be.
    pub(crate) fn forget_ended(&mut self) {
        self.open.retain(|open| !open.has_ended);
    }

    // A session has started a line.
    pub(crate) fn start(&mut self, session: SessionId) {
        if let Some(started) = self.started.get_mut(usize::from(session.0)) {
            *started = started.saturating_add(1);
        }
    }

    // Up to which line of the file all have started.
    pub(crate) fn front(&mut self, lines: &[Line]) -> usize {
        for place in self.front..lines.len() {
            if !self.has_started(&lines[place]) {
                self.front = place;
                return place;
            }
        }
        self.front = lines.len();
        self.front
    }

    fn has_started(&self, line: &Line) -> bool {
        match self.started.get(usize::from(line.session.0)) {
            Some(started) => line.number <= *started,
            None => true,
        }
    }

    // Whether the line is its session's next.
    pub(crate) fn is_next(&self, line: &Line) -> bool {
        match self.started.get(usize::from(line.session.0)) {
            Some(started) => started.checked_add(1) == Some(line.number),
            None => false,
        }
    }
}
