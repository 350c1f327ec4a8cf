ghost use Rattle.std.specs.Prelude.{◌≡◌, ◌≢◌, ◌<◌, ◌+◌, ◌*◌, ◌^◌, ◌++◌, ◌∷◌, [], ℕ, List, length, false, IfOk, option_map, is_some, not, ◌==◌, ◌≤◌, IfSome};
ghost use Rattle.std.specs.Option.{option_to_list};
ghost use Rattle.gx_ids.specs.declared.ids.Node.{Node};
ghost use Rattle.gx_script.specs.declared.Script.{Script};
ghost use Rattle.gx_store.specs.declared.event.Event.TheVariants.{Receive};
ghost use Rattle.gx_store.specs.declared.run.Step.{Step};
ghost use Rattle.gx_store.specs.Ordered.{IsLink, sent_in};
ghost use Rattle.gx_store.specs.Schedule.{first_of, left_on};
ghost use Rattle.gx_agenda.specs.Agrees.{Agree, cursor_at, is_delivery};
ghost use Rattle.gx_agenda.specs.Faults.{Follows};
ghost use Rattle.gx_agenda.specs.FreshLinks.{AreFresh};
ghost use Rattle.gx_agenda.specs.Links.{link_of};

use crate::cursor::Cursor;
use crate::faults::Faults;
use crate::link::link_between;
use gx_ids::{Mem, Node};
use gx_script::Script;
use std::alloc::Global;

/// The cursor of each link by its number, and the faults of links in a form in which they are found fast.
#[derive(Drop)]
pub struct Cursors {
    pub faults: Faults,
    pub links: Vec<Cursor>,
}

impl Cursors {
    /// The cursors of a run in which nothing was delivered.
    pub fn new(alloc: Global, script: &Script) -> Mem<Cursors>
        ensures { IfOk result (λ cursors. Agree script.now [] cursors) }
    {
        let faults = Faults::new(alloc, script.faults.as_slice())?;
        let links = fresh_links(alloc, &faults, script.segments)?;
        Ok(Cursors { faults, links })
    }

    /// The number of a link's next delivery, of so many messages sent on it; none where nothing is left.
    pub fn next(&self, from: Node, to: Node, sent: u64) -> Option<u64>
        ensures first { (script : Script) (steps : List Step) → Agree script steps self.now → IsLink script from to → sent ≡ sent_in from to steps
            → option_to_list (option_map (Receive from to) result) ≡ first_of (left_on script steps from to) }
        ensures left { (script : Script) (steps : List Step) → Agree script steps self.now → IsLink script from to → sent ≡ sent_in from to steps
            → is_some result ≡ not (length (left_on script steps from to) == 0) }
        ensures within { IfSome result (λ number. (0 < number) × (number ≤ sent)) }
    {
        let cursor = self.cursor(link_between(from, to));
        if cursor.done < sent {
            Some(cursor.done + 1)
        } else {
            None
        }
    }

    /// A link's next delivery happens.
    pub fn delivered(&mut self, from: Node, to: Node)
        ensures agree { (script : Script) (steps : List Step) (step : Step) (number : ℕ) → Agree script steps self.old → IsLink script from to
            → number < 2 ^ 64 → first_of (left_on script steps from to) ≡ Receive from to number ∷ [] → step.event ≡ Receive from to number
            → Agree script (steps ++ step ∷ []) self.new }
        ensures others { (link : ℕ) → link ≢ link_of from to → cursor_at self.new link ≡ cursor_at self.old link }
        ensures faults { self.new.faults ≡ self.old.faults }
    {
        self.advance(link_between(from, to));
    }

    /// An event that delivers nothing leaves the cursors as they are to be.
    pub fn undelivered(&self)
        ensures { (script : Script) (steps : List Step) (step : Step) → Agree script steps self.now → is_delivery step.event ≡ false → Agree script (steps ++ step ∷ []) self.now }
    {}

    // The cursor of a link.
    fn cursor(&self, link: usize) -> Cursor
        ensures { result ≡ cursor_at self.now link }
    {
        let cursor = self.links.get(link).copied();
        cursor.unwrap_or(Cursor {
            done: 0,
            again: false,
        })
    }

    // The cursor of a link goes on by a delivery.
    fn advance(&mut self, link: usize)
        ensures here { link < length self.old.links.items → (cursor_at self.old link).done + 1 < 2 ^ 64
            → Follows self.old.faults link (cursor_at self.old link) (cursor_at self.new link) }
        ensures others { (l : ℕ) → l ≢ link → cursor_at self.new l ≡ cursor_at self.old l }
        ensures whole { length self.new.links.items ≡ length self.old.links.items }
        ensures faults { self.new.faults ≡ self.old.faults }
    {
        if let Some(cursor) = self.links.get_mut(link) {
            *cursor = self.faults.after(link, *cursor);
        }
    }
}

// The cursors of all links, of which nothing was delivered.
fn fresh_links(alloc: Global, faults: &Faults, segments: u8) -> Mem<Vec<Cursor>>
    ensures whole { IfOk result (λ links. length links.items ≡ 2 * segments + 2) }
    ensures fresh { IfOk result (λ links. AreFresh faults.now links.items) }
{
    let mut links = Vec::new(alloc);
    for link in 0..2 * usize::from(segments) + 2 {
        let done = faults.skip(link, 0);
        links.push(Cursor { done, again: false })?;
    }
    Ok(links)
}
