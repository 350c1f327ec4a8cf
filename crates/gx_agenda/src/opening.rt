// Whose next line begins a transaction.
ghost use Rattle.std.specs.Prelude.{◌≡◌, ◌&&◌, if◌then◌else◌, true, slice_get, replicate, IfOk};
ghost use Rattle.gx_store.specs.Groups.{asking};
ghost use Rattle.gx_store.specs.Language.{IsScript};
ghost use Rattle.gx_store.specs.Legal.{draws as draws_in};
ghost use Rattle.gx_store.specs.Lines.{Outside};
ghost use Rattle.gx_store.specs.Marks.{is_answered as is_answered_in};
ghost use Rattle.gx_store.specs.Schedule.{sessions_of};
ghost use Rattle.gx_agenda.specs.Slotted.{IsSpan, asking_if, is_due, line_in, noted, noted_at, opens_line, outside_behind, outside_line, place_of};

use crate::queue::Queue;
use crate::span::Span;
use crate::standing::Standing;
use crate::taking::ask;
use gx_groups::Groups;
use gx_ids::{Mem, SessionId};
use gx_script::{Line, Script};
use gx_store::Mark;
use gx_tree::Stmt;
use std::alloc::Global;

// Outside a block, BEGIN and each command begin a transaction.
fn draws(stmt: &Stmt) -> bool
    ensures { result ≡ draws_in Outside stmt.now }
{
    match stmt {
        Stmt::Commit => false,
        Stmt::Rollback => false,
        Stmt::Lock(_, _) => false,
        _ => true,
    }
}

// Whether the line at a place begins a transaction outside a block.
fn opens_at(lines: &[Line], place: Option<usize>) -> bool
    ensures { result ≡ opens_line (line_in lines.now place) }
{
    match place {
        Some(place) => place < lines.len() && draws(&lines[place].stmt),
        None => false,
    }
}

// Whether a session stands outside a block behind a statement, where it is told whether it did before.
fn is_outside_behind(outside: bool, stmt: &Stmt) -> bool
    ensures { result ≡ outside_behind outside stmt.now }
{
    match stmt {
        Stmt::Begin(_) => false,
        Stmt::Commit => true,
        Stmt::Rollback => true,
        _ => outside,
    }
}

// The same behind the line at a place.
fn is_outside_at(lines: &[Line], place: Option<usize>, outside: bool) -> bool
    ensures { result ≡ outside_line outside (line_in lines.now place) }
{
    match place {
        Some(place) => {
            if place < lines.len() {
                is_outside_behind(outside, &lines[place].stmt)
            } else {
                outside
            }
        }
        None => outside,
    }
}

// The place of a session's line of a number.
fn place_of_line(standing: &Standing, number: u32) -> Option<usize>
    ensures { result ≡ place_of standing.now.places number }
{
    if number == 0 {
        None
    } else {
        standing
            .places
            .as_slice()
            .get((number - 1) as usize)
            .copied()
    }
}

pub(crate) fn all_outside(alloc: Global, sessions: usize) -> Mem<Vec<bool>>
    ensures { IfOk result (λ outside. outside.items ≡ replicate sessions true) }
{
    let mut outside = Vec::with_capacity(alloc, sessions)?;
    for _session in 0..sessions {
        outside.push(true)?;
    }
    Ok(outside)
}

// Whether a session is idle, and its next line begins a transaction.
fn is_to_open(script: &Script, queue: &Queue, outside: &[bool], session: SessionId) -> bool
    ensures { result ≡ is_due script.now.lines queue.now.standings.items outside.now session }
{
    let number = usize::from(session.0);
    match outside.get(number).copied() {
        Some(true) => match queue.standings.get(number) {
            Some(standing) => opens_at(script.lines.as_slice(), standing.next_place()),
            None => false,
        },
        _ => false,
    }
}

// A session asks where its next line begins a transaction.
fn ask_where_due(
    groups: &mut Groups,
    script: &Script,
    queue: &Queue,
    outside: &[bool],
    session: SessionId,
)
    ensures { groups.new ≡ (if is_due script.now.lines queue.now.standings.items outside.now session then asking groups.old session else groups.old) }
{
    if is_to_open(script, queue, outside, session) {
        ask(groups, session);
    }
}

// It does so where a line of it was answered.
fn ask_where_answered(
    groups: &mut Groups,
    script: &Script,
    queue: &Queue,
    outside: &[bool],
    marks: &[Mark],
    session: SessionId,
)
    ensures { groups.new ≡ (if is_answered_in session marks.now && is_due script.now.lines queue.now.standings.items outside.now session then asking groups.old session else groups.old) }
{
    if is_answered(marks, session) {
        ask_where_due(groups, script, queue, outside, session);
    }
}

// All ask whose first line begins a transaction.
pub(crate) fn ask_all(groups: &mut Groups, script: &Script, queue: &Queue, outside: &[bool])
    requires { IsScript script.now }
    ensures { groups.new ≡ asking_if (is_due script.now.lines queue.now.standings.items outside.now) groups.old (sessions_of script.now) }
{
    for number in 0..script.sessions.len() {
        ask_where_due(groups, script, queue, outside, SessionId(number as u8));
    }
}

fn is_answered(marks: &[Mark], session: SessionId) -> bool
    ensures { result ≡ is_answered_in session marks.now }
{
    for mark in marks {
        if let Mark::Answer { session: other, .. } = mark {
            if *other == session {
                return true;
            }
        }
    }
    false
}

// Those ask of whom a line was answered, and whose next one begins a transaction.
pub(crate) fn ask_answered(
    groups: &mut Groups,
    script: &Script,
    queue: &Queue,
    outside: &[bool],
    marks: &[Mark],
    answered: Span,
)
    requires { IsScript script.now }
    ensures { IsSpan marks.now answered → groups.new ≡ asking_if (λ s. is_answered_in s marks.now && is_due script.now.lines queue.now.standings.items outside.now s) groups.old (sessions_of script.now) }
{
    let past = answered.past.min(script.sessions.len());
    for number in answered.from..past {
        ask_where_answered(
            groups,
            script,
            queue,
            outside,
            marks,
            SessionId(number as u8),
        );
    }
}

// A session's line of a number was answered: it may have left its block, or stand in one.
fn note_answer(
    outside: &mut Vec<bool>,
    script: &Script,
    queue: &Queue,
    session: SessionId,
    line: u32,
)
    ensures { outside.new.items ≡ noted_at script.now.lines outside.old.items session line (slice_get outside.old.items session.0) (slice_get queue.now.standings.items session.0) }
{
    let number = usize::from(session.0);
    if let Some(was) = outside.as_slice().get(number).copied() {
        if let Some(standing) = queue.standings.get(number) {
            outside[number] = is_outside_at(
                script.lines.as_slice(),
                place_of_line(standing, line),
                was,
            );
        }
    }
}

// Lines were answered: sessions may have left their blocks, or stand in some.
pub(crate) fn note_answers(outside: &mut Vec<bool>, script: &Script, queue: &Queue, marks: &[Mark])
    ensures { outside.new.items ≡ noted script.now.lines queue.now.standings.items outside.old.items marks.now }
{
    for mark in marks {
        if let Mark::Answer {
            session,
            number,
            ..
        } = mark
        {
            note_answer(outside, script, queue, *session, *number);
        }
    }
}
