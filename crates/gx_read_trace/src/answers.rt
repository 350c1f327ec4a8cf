// The answers of a run, session by session.
ghost use Rattle.std.specs.Prelude.{◌≡◌, ◌≢◌, ◌<◌, ◌≤◌, ◌+◌, ◌^◌, ℕ, get_or, length, IfOk};
ghost use Rattle.gx_read_trace.specs.GoingOn as of;

use crate::fault::TraceFault;
use crate::lines::Lines;
use crate::whole_lines::{take_answer_head, take_out_row};
use gx_ids::{Mem, Seq, SessionId};
use gx_script::Script;
use gx_store::StmtAnswer;
use gx_trace::SeenAnswer;
use gx_trace_lines::AnswerHead;
use gx_tree::OutRow;
use std::alloc::Global;

#[tactic(auto, using(crate::proofs::Onward::rows_more, crate::proofs::Onward::rows_fail, crate::proofs::Onward::rows_end))]
fn read_rows<'a>(
    alloc: Global,
    lines: &mut Lines<'a>,
    count: u64,
) -> Result<Seq<OutRow>, TraceFault>
    ensures { of.ReadsRows count lines.old lines.new result }
{
    let mut rows = Seq::new(alloc);
    for _row in 0..count {
        let row = take_out_row(alloc, lines)?;
        rows.push(row)?;
    }
    Ok(rows)
}

// The answer to the line of this number of the session of this name.
#[tactic(auto, using(crate::proofs::Onward::answer_fails, crate::proofs::Onward::answer_said, crate::proofs::Onward::answer_rows, crate::proofs::Onward::answer_rows_fail))]
fn read_answer<'a>(
    alloc: Global,
    lines: &mut Lines<'a>,
    name: &[u8],
    number: u32,
) -> Result<StmtAnswer, TraceFault>
    ensures { of.ReadsAnswer name.now number lines.old lines.new result }
{
    let head = take_answer_head(lines, name, number)?;
    match head {
        AnswerHead::Said(answer) => Ok(answer),
        AnswerHead::Rows(count) => {
            let rows = read_rows(alloc, lines, count)?;
            Ok(StmtAnswer::Rows(rows))
        }
    }
}

// Adds the answers to all lines of a session, so many.
#[tactic(auto, using(crate::proofs::Answering::session_more, crate::proofs::Answering::session_fails, crate::proofs::Answering::session_end))]
fn add_answers<'a>(
    alloc: Global,
    lines: &mut Lines<'a>,
    answers: &mut Seq<SeenAnswer>,
    session: SessionId,
    name: &[u8],
    count: u32,
) -> Result<(), TraceFault>
    ensures { of.AddsAnswers session name.now count lines.old answers.old lines.new answers.new result }
{
    for before in 0..count {
        let number = before + 1;
        let answer = read_answer(alloc, lines, name, number)?;
        answers.push(SeenAnswer {
            session,
            number,
            answer,
        })?;
    }
    Ok(())
}

fn count_line(counts: &mut Vec<u32>, session: SessionId)
    requires { get_or counts.old.items session.0 0 + 1 < 2 ^ 32 }
    ensures all { length counts.new.items ≡ length counts.old.items }
    ensures here { session.0 < length counts.old.items → get_or counts.new.items session.0 0 ≡ get_or counts.old.items session.0 0 + 1 }
    ensures elsewhere { (other : ℕ) → other ≢ session.0 → get_or counts.new.items other 0 ≡ get_or counts.old.items other 0 }
{
    let place = usize::from(session.0);
    if place < counts.len() {
        counts[place] += 1;
    }
}

// How many lines each session has.
fn line_counts(alloc: Global, script: &Script) -> Mem<Vec<u32>>
    requires { length script.now.lines < 2 ^ 32 }
    ensures { IfOk result (λ counts. of.AreCounts (length script.now.sessions) script.now.lines counts.items) }
{
    let mut counts = vec![in alloc; 0; script.sessions.len()]?;
    for line in script.lines.as_slice() {
        count_line(&mut counts, line.session);
    }
    Ok(counts)
}

/// Reads the answers to all lines of a script.
#[tactic(auto, using(crate::proofs::Answering::sessions_more, crate::proofs::Answering::sessions_fail, crate::proofs::Answering::sessions_end))]
pub fn read_answers<'a>(
    alloc: Global,
    script: &Script,
    lines: &mut Lines<'a>,
) -> Result<Seq<SeenAnswer>, TraceFault>
    requires sessions { length script.now.sessions ≤ 2 ^ 8 }
    requires lines { length script.now.lines < 2 ^ 32 }
    ensures { of.ReadsAnswers script.now lines.old lines.new result }
{
    let counts = line_counts(alloc, script)?;
    let mut answers = Seq::new(alloc);
    for (place, name) in script.sessions.as_slice().iter().enumerate() {
        add_answers(
            alloc,
            lines,
            &mut answers,
            SessionId(place as u8),
            name.as_slice(),
            counts[place],
        )?;
    }
    Ok(answers)
}
