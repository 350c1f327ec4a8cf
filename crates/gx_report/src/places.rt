// Where the answers of each session stand in a run.
ghost use Rattle.std.specs.Prelude.{◌≡◌, ◌++◌, ◌∷◌, ◌<◌, ℕ, [], length, replicate, nat_eq, false, IfOk, OnOk};
ghost use Rattle.gx_report.specs.Places.{ArePlaces, IsNoted, nth_places, place_in, places_among};

use gx_ids::{Mem, Seq};
use gx_store::{Mark, Steps};
use std::alloc::Global;

/// Where an answer stands in a run: the step, and the mark in it, from 0.
#[derive(Clone, Copy)]
pub struct Place {
    pub step: usize,
    pub mark: usize,
}

/// The places of the answers of each session of so many, by the session's number, in the order of the run.
pub fn answer_places(alloc: Global, sessions: usize, steps: &Steps) -> Mem<Vec<Seq<Place>>>
    ensures { IfOk result (λ index. ArePlaces sessions steps.now index.items) }
{
    let mut index = no_places(alloc, sessions)?;
    for step in 0..steps.len() {
        note_step(&mut index, step, steps.at(step).marks())?;
    }
    Ok(index)
}

fn no_places(alloc: Global, sessions: usize) -> Mem<Vec<Seq<Place>>>
    ensures { IfOk result (λ index. index.items ≡ replicate sessions []) }
{
    let mut index = Vec::with_capacity(alloc, sessions)?;
    for _session in 0..sessions {
        index.push(Seq::new(alloc))?;
    }
    Ok(index)
}

// Notes where the answers of a step stand.
fn note_step(index: &mut Vec<Seq<Place>>, step: usize, marks: &[Mark]) -> Mem<()>
    ensures { OnOk result (IsNoted index.old.items index.new.items (λ session. places_among session step 0 marks.now)) }
{
    for (mark, done) in marks.iter().enumerate() {
        note_mark(index, Place { step, mark }, done)?;
    }
    Ok(())
}

// Notes where a mark stands that is an answer of one of the sessions.
fn note_mark(index: &mut Vec<Seq<Place>>, place: Place, mark: &Mark) -> Mem<()>
    ensures { OnOk result (IsNoted index.old.items index.new.items (λ session. place_in session place mark.now)) }
{
    match mark {
        Mark::Answer {
            session,
            number: _,
            answer: _,
        } if usize::from(session.0) < index.len() => add(index, usize::from(session.0), place),
        _ => Ok(()),
    }
}

// One more place of a session.
fn add(index: &mut Vec<Seq<Place>>, session: usize, place: Place) -> Mem<()>
    requires { session < length index.old.items }
    ensures whole { OnOk result (length index.new.items ≡ length index.old.items) }
    ensures here { OnOk result (nth_places index.new.items session ≡ nth_places index.old.items session ++ place ∷ []) }
    ensures others { OnOk result ((k : ℕ) → nat_eq k session ≡ false → nth_places index.new.items k ≡ nth_places index.old.items k) }
{
    index[session].push(place)
}
