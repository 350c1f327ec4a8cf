// Whether each answer has its mark.
ghost use Rattle.std.specs.Prelude.{◌≡◌, ◌↔◌, ◌≤◌, ◌∷◌, [], length, IsTrue};
ghost use Rattle.gx_store.specs.Language.{IsScript};
ghost use Rattle.gx_store.specs.Marks.{answer_count as count_of};
ghost use Rattle.gx_judging.specs.Answers.{AreCounted, answers_at};

use crate::answers::Answers;
use gx_ids::SessionId;
use gx_script::Script;
use gx_store::Mark;

fn answers_by(mark: &Mark, session: SessionId) -> usize
    ensures is { result ≡ count_of session (mark.now ∷ []) }
    ensures room { result ≤ 1 }
{
    match mark {
        Mark::Answer {
            session: answered,
            ..
        } if answered.0 == session.0 => 1,
        _ => 0,
    }
}

fn answer_count(session: SessionId, marks: &[Mark]) -> usize
    ensures is { result ≡ count_of session marks.now }
    ensures room { result ≤ length marks.now }
{
    let mut count = 0;
    for mark in marks {
        count += answers_by(mark, session);
    }
    count
}

fn is_answered(answers: &Answers, session: SessionId, marks: &[Mark]) -> bool
    ensures { IsTrue result ↔ (count_of session marks.now ≡ length (answers_at answers.now.by_session.items session.0)) }
{
    answer_count(session, marks) == answers.of_session(session).len()
}

/// Whether each session has as many marks of answers as answers.
pub(crate) fn are_answered(script: &Script, answers: &Answers, marks: &[Mark]) -> bool
    requires { IsScript script.now }
    ensures { IsTrue result ↔ AreCounted script.now answers.now marks.now }
{
    for number in 0..script.sessions.len() {
        if !is_answered(answers, SessionId(number as u8), marks) {
            return false;
        }
    }
    true
}
