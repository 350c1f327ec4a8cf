ghost use Rattle.std.specs.Prelude.{◌≡◌, ◌<◌, ◌++◌, ◌∷◌, [], ◌-◌, get_or, length, slice_get, OnOk, OnErr};

use crate::event::Event;
use crate::mark::Mark;
use gx_ids::{Mem, Stamp};
use std::alloc::Global;
use std::marker::Model;

/// A step without its marks, and between which places these stand in the list of all.
#[derive(Clone, Copy)]
pub struct Head {
    pub stamp: Stamp,
    pub event: Event,
    pub first: usize,
    pub last: usize,
}

/// The steps of a run. Their marks stand in one list.
#[derive(Drop)]
pub struct Steps {
    heads: Vec<Head>,
    marks: Vec<Mark>,
    blank: Option<Vec<Mark>>,
}

impl Model for Steps {
    ghost use Rattle.std.specs.Prelude.{◌≡◌, [], List, IfSome};
    ghost use Rattle.std.specs.Coded.{codes};
    ghost use Rattle.gx_tree.specs.contracts.expr.Expr as expr_type;
    ghost use Rattle.gx_tree.specs.contracts.cond.Cond as cond_type;
    ghost use Rattle.gx_dsnap.specs.contracts.snapshot.Snapshot as snapshot_type;
    ghost use Rattle.gx_store.specs.declared.run.Step.{Step as OneStep};
    ghost use Rattle.gx_store.specs.Kept.{AreWithin, steps_in};

    ghost Value = { List OneStep };

    ghost coded = { Prim.hlevel (codes, expr_type.the_row.coded, cond_type.the_row.coded, snapshot_type.the_row.coded) };

    ghost view = { λ s. steps_in s.heads.items s.marks.items };

    ghost invariant = { λ s. AreWithin s.heads.items s.marks.items × IfSome s.blank (λ blank. blank.items ≡ []) };
}

/// A step as it stands in a run.
#[derive(Drop)]
pub struct StepView<'a> {
    stamp: Stamp,
    event: Event,
    marks: &'a [Mark],
}

impl<'a> Model for StepView<'a> {
    ghost use Rattle.std.specs.Coded.{codes};
    ghost use Rattle.gx_tree.specs.contracts.expr.Expr as expr_type;
    ghost use Rattle.gx_tree.specs.contracts.cond.Cond as cond_type;
    ghost use Rattle.gx_dsnap.specs.contracts.snapshot.Snapshot as snapshot_type;
    ghost use Rattle.gx_store.specs.declared.run.Step.{Step as OneStep};

    ghost Value = { OneStep };

    ghost coded = { Prim.hlevel (codes, expr_type.the_row.coded, cond_type.the_row.coded, snapshot_type.the_row.coded) };

    ghost view = { λ s. record { stamp = s.stamp; event = s.event; marks = s.marks.now } };
}

impl<'a> StepView<'a> {
    /// When and where it was done.
    pub fn stamp(&self) -> Stamp
        ensures { result ≡ self.now.stamp }
    {
        self.stamp
    }

    /// What was done.
    pub fn event(&self) -> Event
        ensures { result ≡ self.now.event }
    {
        self.event
    }

    /// What it did, in order.
    pub fn marks(&self) -> &'a [Mark]
        ensures { result.now ≡ self.now.marks }
    {
        self.marks
    }
}

impl Steps {
    ghost use Rattle.gx_store.specs.declared.run.Step.{Step as OneStep};

    /// No steps.
    pub fn new(alloc: Global) -> Steps
        ensures { result ≡ [] }
    {
        Steps {
            heads: Vec::new(alloc),
            marks: Vec::new(alloc),
            blank: None,
        }
    }

    /// How many steps there are.
    pub fn len(&self) -> usize
        ensures { result ≡ length self.now }
    {
        self.heads.len()
    }

    /// The step at a place, from 0.
    pub fn get(&self, place: usize) -> Option<StepView<'_>>
        ensures { result ≡ slice_get self.now place }
    {
        match self.heads.as_slice().get(place) {
            Some(head) => Some(StepView {
                stamp: head.stamp,
                event: head.event,
                marks: &self.marks.as_slice()[head.first..head.last],
            }),
            None => None,
        }
    }

    /// The step at a place where one is, from 0.
    pub fn at(&self, place: usize) -> StepView<'_>
        requires { place < length self.now }
        ensures { (other : OneStep) → result ≡ get_or self.now place other }
    {
        match self.get(place) {
            Some(step) => step,
            None => unreachable!(),
        }
    }

    /// The step behind all others.
    pub fn last(&self) -> Option<StepView<'_>>
        ensures { result ≡ slice_get self.now (length self.now - 1) }
    {
        self.get(self.heads.len().checked_sub(1)?)
    }

    /// An empty list for the marks of the next step, with the room that steps before it have needed.
    pub fn blank(&mut self, alloc: Global) -> Vec<Mark>
        ensures steps { self.new ≡ self.old }
        ensures blank { result.items ≡ [] }
    {
        match self.blank.take() {
            Some(blank) => blank,
            None => Vec::new(alloc),
        }
    }

    /// Adds a step behind the others.
    #[tactic(auto, using(crate::proofs::Kept::steps_longer))]
    pub fn push(&mut self, stamp: Stamp, event: Event, mut marks: Vec<Mark>) -> Mem<()>
        ensures ok { OnOk result (self.new ≡ self.old ++ record { stamp = stamp; event = event; marks = marks.items } ∷ []) }
        ensures err { OnErr result (self.new ≡ self.old) }
    {
        let first = self.marks.len();
        self.marks.append(&mut marks)?;
        self.blank = Some(marks);
        let last = self.marks.len();
        self.heads.push(Head {
            stamp,
            event,
            first,
            last,
        })?;
        Ok(())
    }
}
