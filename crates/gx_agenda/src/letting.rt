// The lines that may start, of which the groups let some.
ghost use Rattle.std.specs.Prelude.{◌≡◌, ◌++◌, ℕ, List, OnOk, filter, map, not, option_map};
ghost use Rattle.std.specs.Ordering.{nat_cmp};
ghost use Rattle.std.specs.Option.{option_to_list};
ghost use Rattle.gx_groups.specs.Table.{is_held_up};
ghost use Rattle.gx_ids.specs.declared.ids.SessionId.{SessionId as OneSession};
ghost use Rattle.gx_script.specs.declared.Script.{Script};
ghost use Rattle.gx_store.specs.declared.event.Event.TheVariants.{Start};
ghost use Rattle.gx_store.specs.declared.run.Step.{Step};
ghost use Rattle.gx_store.specs.Groups.{lets};
ghost use Rattle.gx_store.specs.Schedule.{first_of, starts};
ghost use Rattle.gx_agenda.specs.Queued.{AreQueued};
ghost use Rattle.gx_agenda.specs.Slotted.{AreSlots};
ghost use Rattle.gx_agenda.specs.VecMap.{IsRising};

use crate::queue::Queue;
use crate::slots::Slots;
use crate::vec_map::VecMap;
use gx_ids::{Mem, SessionId};
use gx_store::Event;

/// The session whose next line stands first in the file, of those that no group holds up; none where there is none.
pub fn first_start(queue: &Queue, slots: &Option<Slots>) -> Option<SessionId>
    ensures { (script : Script) (steps : List Step) → AreQueued script steps queue.now → AreSlots script steps slots.now
        → option_to_list (option_map Start result) ≡ first_of (filter (lets script steps) (starts script steps)) }
{
    match slots {
        Some(slots) => first_let(&queue.next, slots),
        None => queue.first(),
    }
}

/// Adds the starts of all lines that are their sessions' next and that no group holds up, in the order of the file.
pub fn push_starts(queue: &Queue, slots: &Option<Slots>, events: &mut Vec<Event>) -> Mem<()>
    ensures { OnOk result ((script : Script) (steps : List Step) → AreQueued script steps queue.now → AreSlots script steps slots.now
        → events.new.items ≡ events.old.items ++ filter (lets script steps) (starts script steps)) }
{
    match slots {
        Some(slots) => push_let(&queue.next, slots, events),
        None => queue.push_starts(events),
    }
}

// The first of these sessions that no group holds up.
fn first_let(next: &VecMap<usize, SessionId>, slots: &Slots) -> Option<SessionId>
    ensures all { option_to_list (option_map Start result) ≡ first_of (map (λ (e : ℕ × OneSession). Start e.1) (filter (λ (e : ℕ × OneSession). not (is_held_up slots.now.groups e.1)) next.now)) }
    ensures ordered { IsRising nat_cmp next.now }
{
    for (_, session) in next.entries() {
        if !slots.is_held_up(*session) {
            return Some(*session);
        }
    }
    None
}

// Adds the starts of the lines of those of these sessions that no group holds up.
fn push_let(next: &VecMap<usize, SessionId>, slots: &Slots, events: &mut Vec<Event>) -> Mem<()>
    ensures all { OnOk result (events.new.items ≡ events.old.items ++ map (λ (e : ℕ × OneSession). Start e.1) (filter (λ (e : ℕ × OneSession). not (is_held_up slots.now.groups e.1)) next.now)) }
    ensures ordered { IsRising nat_cmp next.now }
{
    for (_, session) in next.entries() {
        if !slots.is_held_up(*session) {
            events.push(Event::Start(*session))?;
        }
    }
    Ok(())
}
