ghost use Rattle.std.specs.Prelude.{◌≡◌, ◌<◌, ◌+◌, ◌++◌, ◌∷◌, ℕ, nat_eq, false, Some, length, replicate, [], All, IfOk, OnOk, if◌then◌else◌, option_copied, option_map};
ghost use Rattle.gx_ids.specs.declared.ids.Node.{Node};
ghost use Rattle.gx_store.specs.Journals.{is_same_node};
ghost use Rattle.gx_world.specs.Links.{IsAddressed, IsLong, letter_at, link_in, nth_link, nth_place, places_from, sent_in_step, stands_at};

use crate::letter::Letter;
use gx_ids::{Mem, Node, Seq};
use gx_msg::Message;
use gx_store::{Mark, StepView, Steps};
use std::alloc::Global;

/// Where a message's sending stands in a run: the step, and the mark in it, from 0.
#[derive(Clone, Copy)]
pub struct Place {
    pub step: usize,
    pub mark: usize,
}

/// The places of all messages sent, by link, in the order of their numbers: those to each segment, and those from each, by the
/// segment's number; place 0 stays empty.
#[derive(Drop)]
pub struct Letters {
    pub to: Vec<Seq<Place>>,
    pub from: Vec<Seq<Place>>,
}

impl Letters {
    /// No messages.
    pub fn new(alloc: Global, segments: u8) -> Mem<Letters>
        ensures to { IfOk result (λ letters. letters.to.items ≡ replicate (segments + 1) []) }
        ensures from { IfOk result (λ letters. letters.from.items ≡ replicate (segments + 1) []) }
    {
        Ok(Letters {
            to: no_places(alloc, segments)?,
            from: no_places(alloc, segments)?,
        })
    }

    /// Notes where the messages stand that a step of a node has sent.
    pub fn note(&mut self, node: Node, step: usize, marks: &[Mark]) -> Mem<()>
        ghost segments: { ℕ }
        requires long { IsLong segments self.old }
        requires addressed { All (IsAddressed segments node) marks.now }
        ensures long { OnOk result (IsLong segments self.new) }
        ensures links { OnOk result ((f t : Node) → link_in self.new f t ≡ link_in self.old f t ++ (if is_same_node f node then places_from step 0 t marks.now else [])) }
    {
        for mark in 0..marks.len() {
            note_mark(self, node, Place { step, mark }, &marks[mark])?;
        }
        Ok(())
    }

    /// The message of a number on a link, from 1, lent out of the run in which it was sent; none where there is no such message.
    pub fn letter<'a>(
        &self,
        steps: &'a Steps,
        from: Node,
        to: Node,
        number: u64,
    ) -> Option<Letter<'a>>
        ensures { result ≡ letter_at steps.now (link_in self.now from to) number }
    {
        match place_in(self.link(from, to), number) {
            Some(place) => letter_in(steps, place, number),
            None => None,
        }
    }

    /// The message of a number on a link, from 1, as it stands in the run; none where there is no such message.
    pub fn message<'a>(
        &self,
        steps: &'a Steps,
        from: Node,
        to: Node,
        number: u64,
    ) -> Option<&'a Message>
        ensures { option_copied result ≡ option_map (λ letter. letter.message) (letter_at steps.now (link_in self.now from to) number) }
    {
        message_at(steps, place_in(self.link(from, to), number)?)
    }

    /// How many messages were sent on a link.
    pub fn count(&self, from: Node, to: Node) -> u64
        ensures { result ≡ length (link_in self.now from to) }
    {
        self.link(from, to).len() as u64
    }

    // The places of a link's messages.
    fn link(&self, from: Node, to: Node) -> &[Place]
        ensures { result.now ≡ link_in self.now from to }
    {
        if from.0 == 0 {
            places_at(self.to.as_slice(), to)
        } else if to.0 == 0 {
            places_at(self.from.as_slice(), from)
        } else {
            &[]
        }
    }
}

fn no_places(alloc: Global, segments: u8) -> Mem<Vec<Seq<Place>>>
    ensures { IfOk result (λ links. links.items ≡ replicate (segments + 1) []) }
{
    let count = usize::from(segments) + 1;
    let mut links = Vec::with_capacity(alloc, count)?;
    for _link in 0..count {
        links.push(Seq::new(alloc))?;
    }
    Ok(links)
}

// Notes a message that a mark has sent.
fn note_mark(letters: &mut Letters, node: Node, place: Place, mark: &Mark) -> Mem<()>
    ghost segments: { ℕ }
    requires long { IsLong segments letters.old }
    requires addressed { IsAddressed segments node mark.now }
    ensures long { OnOk result (IsLong segments letters.new) }
    ensures links { OnOk result ((f t : Node) → link_in letters.new f t ≡ link_in letters.old f t ++ (if is_same_node f node then places_from place.step place.mark t (mark.now ∷ []) else [])) }
{
    match mark {
        Mark::Sent {
            to,
            number: _,
            message: _,
        } if node.0 == 0 => add(&mut letters.to, *to, place),
        Mark::Sent {
            to: _,
            number: _,
            message: _,
        } => add(&mut letters.from, node, place),
        _ => Ok(()),
    }
}

// One more place of a link.
fn add(links: &mut Vec<Seq<Place>>, at: Node, place: Place) -> Mem<()>
    requires { at.0 < length links.old.items }
    ensures long { OnOk result (length links.new.items ≡ length links.old.items) }
    ensures here { OnOk result (nth_link links.new.items at.0 ≡ nth_link links.old.items at.0 ++ place ∷ []) }
    ensures others { OnOk result ((k : ℕ) → nat_eq k at.0 ≡ false → nth_link links.new.items k ≡ nth_link links.old.items k) }
{
    links[usize::from(at.0)].push(place)
}

fn places_at(links: &[Seq<Place>], at: Node) -> &[Place]
    ensures { result.now ≡ nth_link links.now at.0 }
{
    match links.get(usize::from(at.0)) {
        Some(places) => places.as_slice(),
        None => &[],
    }
}

fn place_in(places: &[Place], number: u64) -> Option<Place>
    ensures { result ≡ nth_place places.now number }
{
    let before = number.checked_sub(1)?;
    places.get(before as usize).copied()
}

// The message that stands at a place.
fn letter_in(steps: &Steps, place: Place, number: u64) -> Option<Letter<'_>>
    ensures { result ≡ stands_at steps.now number (Some place) }
{
    match steps.get(place.step) {
        Some(step) => letter_of(&step, place.mark, number),
        None => None,
    }
}

// A message where it stands.
fn message_at(steps: &Steps, place: Place) -> Option<&Message>
    ensures { (number : ℕ) → option_copied result ≡ option_map (λ letter. letter.message) (stands_at steps.now number (Some place)) }
{
    match steps.get(place.step)?.marks().get(place.mark) {
        Some(
            Mark::Sent {
                to: _,
                number: _,
                message,
            },
        ) => Some(message),
        _ => None,
    }
}

fn letter_of<'a>(step: &StepView<'a>, mark: usize, number: u64) -> Option<Letter<'a>>
    ensures { result ≡ sent_in_step number mark (Some step.now) }
{
    match step.marks().get(mark) {
        Some(
            Mark::Sent {
                to: _,
                number: _,
                message,
            },
        ) => Some(Letter {
            number,
            clock: step.stamp().clock,
            incarnation: 1,
            message,
        }),
        _ => None,
    }
}
