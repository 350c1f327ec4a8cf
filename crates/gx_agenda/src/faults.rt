ghost use Rattle.std.specs.Prelude.{◌≡◌, ◌||◌, ◌+◌, ◌<◌, ◌^◌, ℕ, false, IfOk, OnOk};
ghost use Rattle.std.specs.List.{list_any};
ghost use Rattle.gx_script.specs.declared.Script.{Script};
ghost use Rattle.gx_agenda.specs.Links.{is_loss_of, is_repeat_of};
ghost use Rattle.gx_agenda.specs.Faults.{AreFaultsOf, Skips, Follows, is_lost, is_repeated};

use crate::cursor::Cursor;
use crate::link::{LinkMessage, faulty_link};
use gx_ids::Mem;
use gx_script::LinkFault;
use std::alloc::Global;
use std::collections::BTreeSet;

/// The messages that links lose, and those that they deliver twice unless they lose them.
#[derive(Drop)]
pub struct Faults {
    pub lost: BTreeSet<LinkMessage>,
    pub repeated: BTreeSet<LinkMessage>,
}

impl Faults {
    /// What a script's faults say.
    pub fn new(alloc: Global, faults: &[LinkFault]) -> Mem<Faults>
        ensures { IfOk result (λ known. (script : Script) → script.faults ≡ faults.now → AreFaultsOf script known) }
    {
        let mut known = Faults {
            lost: BTreeSet::new(alloc),
            repeated: BTreeSet::new(alloc),
        };
        for fault in faults {
            known.add(*fault)?;
        }
        Ok(known)
    }

    // Adds one fault.
    fn add(&mut self, fault: LinkFault) -> Mem<()>
        ensures lost { OnOk result ((link number : ℕ) → is_lost self.new link number ≡ (is_lost self.old link number || is_loss_of link number fault)) }
        ensures repeated { OnOk result ((link number : ℕ) → is_repeated self.new link number ≡ (is_repeated self.old link number || is_repeat_of link number fault)) }
    {
        let message = LinkMessage {
            link: faulty_link(fault),
            number: fault.number,
        };
        if fault.repeat {
            self.repeated.insert(message)?;
        } else {
            self.lost.insert(message)?;
        }
        Ok(())
    }

    /// Whether a link loses the message of a number.
    pub fn is_lost(&self, link: usize, number: u64) -> bool
        ensures { result ≡ is_lost self.now link number }
    {
        self.lost.contains(&LinkMessage { link, number })
    }

    /// Whether a link repeats the message of a number, unless it loses it.
    pub fn is_repeated(&self, link: usize, number: u64) -> bool
        ensures { result ≡ is_repeated self.now link number }
    {
        self.repeated.contains(&LinkMessage { link, number })
    }

    /// How many messages of a link are done once these are and those behind them that are lost, up to the first that isn't.
    pub fn skip(&self, link: usize, done: u64) -> u64
        ensures { Skips self.now link done result }
    {
        let mut passed = done;
        'skipping: while passed < u64::MAX && self.is_lost(link, passed + 1) {
            passed += 1;
        }
        passed
    }

    /// Where a link stands after its next delivery.
    pub fn after(&self, link: usize, cursor: Cursor) -> Cursor
        ensures { cursor.done + 1 < 2 ^ 64 → Follows self.now link cursor result }
    {
        let Some(number) = cursor.done.checked_add(1) else {
            return cursor;
        };
        if !cursor.again && self.is_repeated(link, number) {
            Cursor {
                done: cursor.done,
                again: true,
            }
        } else {
            Cursor {
                done: self.skip(link, number),
                again: false,
            }
        }
    }
}
