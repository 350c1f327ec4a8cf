// The answers that a text shows, by session and number.
ghost use Rattle.std.specs.Prelude.{◌≡◌, ◌++◌, ◌∷◌, ◌<◌, ℕ, nat_eq, false, length, replicate, [], IfOk, OnOk, option_copied};
ghost use Rattle.gx_judging.specs.Filled.{answers_of, nth_answer};
ghost use Rattle.gx_judging.specs.Answers.{answers_at, answer_at};

use gx_ids::{Duplicate, Mem, Seq, SessionId};
use gx_store::StmtAnswer;
use gx_trace::SeenAnswer;
use std::alloc::Global;

/// The answers of each session, by its number.
#[derive(Drop)]
pub struct Answers {
    pub by_session: Vec<Seq<StmtAnswer>>,
}

/// As many as sessions can be named.
const SESSIONS: usize = 256;

fn no_answers(alloc: Global) -> Mem<Vec<Seq<StmtAnswer>>>
    ensures { IfOk result (λ lists. lists.items ≡ replicate 256 []) }
{
    let mut lists = Vec::new(alloc);
    for _session in 0..SESSIONS {
        lists.push(Seq::new(alloc))?;
    }
    Ok(lists)
}

pub(crate) fn answer_copy(alloc: Global, answer: &StmtAnswer) -> Mem<StmtAnswer>
    ensures { IfOk result (λ copy. copy ≡ answer.now) }
{
    match answer {
        StmtAnswer::Begin => Ok(StmtAnswer::Begin),
        StmtAnswer::Commit => Ok(StmtAnswer::Commit),
        StmtAnswer::Rollback => Ok(StmtAnswer::Rollback),
        StmtAnswer::Locked => Ok(StmtAnswer::Locked),
        StmtAnswer::Inserted(count) => Ok(StmtAnswer::Inserted(*count)),
        StmtAnswer::Updated(count) => Ok(StmtAnswer::Updated(*count)),
        StmtAnswer::Deleted(count) => Ok(StmtAnswer::Deleted(*count)),
        StmtAnswer::Rows(rows) => Ok(StmtAnswer::Rows(rows.copy(alloc)?)),
        StmtAnswer::Refused(reason) => Ok(StmtAnswer::Refused(*reason)),
    }
}

// One answer more of a session.
fn add(lists: &mut Vec<Seq<StmtAnswer>>, session: SessionId, answer: StmtAnswer) -> Mem<()>
    requires { 256 ≡ length lists.old.items }
    ensures long { OnOk result (256 ≡ length lists.new.items) }
    ensures here { OnOk result (answers_at lists.new.items session.0 ≡ answers_at lists.old.items session.0 ++ answer ∷ []) }
    ensures others { OnOk result ((k : ℕ) → nat_eq k session.0 ≡ false → answers_at lists.new.items k ≡ answers_at lists.old.items k) }
{
    lists[session.0 as usize].push(answer)
}

fn add_all(alloc: Global, lists: &mut Vec<Seq<StmtAnswer>>, answers: &[SeenAnswer]) -> Mem<()>
    requires { 256 ≡ length lists.old.items }
    ensures { OnOk result ((k : ℕ) → answers_at lists.new.items k ≡ answers_at lists.old.items k ++ answers_of k answers.now) }
{
    for number in 0..answers.len() {
        let said = &answers[number];
        add(lists, said.session, answer_copy(alloc, &said.answer)?)?;
    }
    Ok(())
}

impl Answers {
    /// By these.
    pub fn of(alloc: Global, answers: &[SeenAnswer]) -> Mem<Answers>
        ensures { IfOk result (λ all. (k : ℕ) → answers_at all.by_session.items k ≡ answers_of k answers.now) }
    {
        let mut by_session = no_answers(alloc)?;
        add_all(alloc, &mut by_session, answers)?;
        Ok(Answers { by_session })
    }

    /// Those of a session, in their order.
    pub fn of_session(&self, session: SessionId) -> &[StmtAnswer]
        ensures { result.now ≡ answers_at self.now.by_session.items session.0 }
    {
        match self.by_session.as_slice().get(session.0 as usize) {
            Some(answers) => answers.as_slice(),
            None => &[],
        }
    }

    /// The answer to the line of this number, from 1.
    pub fn to(&self, session: SessionId, number: u32) -> Option<&StmtAnswer>
        ensures { option_copied result ≡ answer_at self.now session number }
    {
        let before = number.checked_sub(1)?;
        self.of_session(session).get(before as usize)
    }
}
