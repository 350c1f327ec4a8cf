ghost use Rattle.std.specs.Prelude.{◌≡◌, [], ◌↔◌, IfOk, IsErrOf};
ghost use Rattle.gx_outside.specs.Memory.{IsFailingNext, IsAppendCounted, shelf_of};
ghost use Rattle.gx_outside.specs.Shelves.{IsAppended};

use crate::journal::{AppendFault, Journal};
use crate::memory::is_failing_next;
use gx_ids::{Mem, Seq};
use std::alloc::Global;
use std::marker::Model;

/// A journal that keeps its items in memory.
#[derive(Drop)]
pub struct JournalMem {
    items: Vec<Seq<u8>>,
    fail: Vec<u64>,
    calls: u64,
    faults: u64,
}

impl Model for JournalMem {
    ghost use Rattle.std.specs.Prelude.{◌≤◌};
    ghost use Rattle.gx_outside.specs.Memory.{JournalState};

    ghost Value = { JournalState };

    ghost view = { λ j. record { items = j.items.items; fail = j.fail.items; calls = j.calls; faults = j.faults } };

    ghost invariant = { λ j. j.faults ≤ j.calls };
}

impl JournalMem {
    /// A journal without items. The appends whose numbers stand in `fail`, counted from 1, fail.
    pub fn new(alloc: Global, fail: Vec<u64>) -> Mem<JournalMem>
        ensures { IfOk result (λ j. j ≡ record { items = []; fail = fail.items; calls = 0; faults = 0 }) }
    {
        Ok(JournalMem {
            items: Vec::new(alloc),
            fail,
            calls: 0,
            faults: 0,
        })
    }

    /// The items kept, the oldest first.
    pub fn kept_items(&self) -> &[Seq<u8>]
        ensures { result.now ≡ self.now.items }
    {
        self.items.as_slice()
    }
}

impl Journal for JournalMem {
    ghost shelf = { λ j. shelf_of j };

    fn append(&mut self, item: Vec<u8>) -> Result<(), AppendFault>
        ensures appended { IsAppended (shelf_of self.old) (shelf_of self.new) item.items result }
        ensures fails { IsErrOf result AppendFault.Failed ↔ IsFailingNext self.old.calls self.old.fail }
        ensures counted { IsAppendCounted self.old.calls self.new.calls self.old.faults self.new.faults result }
        ensures same { self.new.fail ≡ self.old.fail }
    {
        let is_failing = is_failing_next(self.calls, self.fail.as_slice());
        self.calls = self.calls.saturating_add(1);
        if is_failing {
            drop(item);
            self.faults += 1;
            return Err(AppendFault::Failed);
        }
        match self.items.push(Seq::from_vec(item)) {
            Ok(()) => Ok(()),
            Err(_) => Err(AppendFault::OutOfMemory),
        }
    }

    fn item(&self, place: u64) -> Option<&[u8]> {
        match self.items.get(place as usize) {
            Some(item) => Some(item.as_slice()),
            None => None,
        }
    }

    fn faults(&self) -> u64 {
        self.faults
    }
}
