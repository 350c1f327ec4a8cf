// The line that a session has under way, and what it may do there.
ghost use Rattle.std.specs.Prelude.{◌≡◌, ◌↔◌, ◌+◌, ◌<◌, ◌^◌, IsTrue, Some};
ghost use Rattle.std.specs.Option.{option_copied};
ghost use Rattle.gx_store.specs.Commands.{RunsLine, state_at};
ghost use Rattle.gx_store.specs.Legal.{draws as may_draw, is_in_block as has_block, may_abort as can_abort};
ghost use Rattle.gx_store.specs.Lines.{cid_of, is_command as is_command_in, is_on_rows as concerns_rows, level_of, may_commit as can_commit, next_stmt, state_of, transaction_of};
ghost use Rattle.gx_store.specs.Marks.{answer_count};
ghost use Rattle.gx_store.specs.Points.{before, ends_in, starts_at as starts_up_to, starts_in};
ghost use Rattle.gx_tree.specs.declared.stmt.Stmt.{Stmt as OneStmt};
ghost use Rattle.gx_legal.specs.Moments.{point_of};
ghost use Rattle.gx_legal.specs.Standings.{HasNumber, commands_in, state_in};

use crate::counts::is_start_of;
use crate::moment::Moment;
use crate::seats::{standing_at, start_count_at};
use crate::standing::{Block, stmt_at};
use gx_ids::{Cid, Gxid, SessionId};
use gx_tree::{Level, Stmt};

/// The statement of the session's first line that isn't answered.
pub fn next_line<'a>(moment: &Moment<'a, '_>, session: SessionId) -> Option<&'a Stmt>
    ensures { option_copied result ≡ next_stmt session moment.now.script.now moment.now.before.now }
{
    let answered = standing_at(moment, session).answered;
    stmt_at(moment.script.lines.as_slice(), session, answered + 1)
}

// Whether the session has started one line more than were answered.
fn has_started(moment: &Moment<'_, '_>, session: SessionId) -> bool
    ensures { IsTrue result ↔ (starts_up_to session (point_of moment.now) ≡ answer_count session (before (point_of moment.now)) + 1) }
{
    let answered = standing_at(moment, session).answered;
    let started = start_count_at(moment, session);
    if is_start_of(moment.event, session) {
        started == answered
    } else {
        started == answered + 1
    }
}

/// The statement that the session has under way: started, and not answered.
pub fn line_under_way<'a>(moment: &Moment<'a, '_>, session: SessionId) -> Option<&'a Stmt>
    ensures { (stmt : OneStmt) → (option_copied result ≡ Some stmt) ↔ RunsLine moment.now.script.now (point_of moment.now) session stmt }
{
    if has_started(moment, session) {
        next_line(moment, session)
    } else {
        None
    }
}

/// SELECT, INSERT, UPDATE and DELETE.
pub fn is_on_rows(stmt: &Stmt) -> bool
    ensures { result ≡ concerns_rows stmt.now }
{
    match stmt {
        Stmt::Select(_) | Stmt::Insert(_, _) | Stmt::Update(_, _, _) | Stmt::Delete(_, _) => true,
        _ => false,
    }
}

/// Whether the line is a command there.
pub fn is_command(block: Block, stmt: &Stmt) -> bool
    ensures { result ≡ is_command_in (state_in block) stmt.now }
{
    match (block, stmt) {
        (Block::Inside { .. }, Stmt::Lock(_, _)) => true,
        (Block::Failed, _) => false,
        _ => is_on_rows(stmt),
    }
}

/// The level at which a line runs there.
pub fn level_in(block: Block) -> Level
    ensures { result ≡ level_of (state_in block) }
{
    match block {
        Block::Inside { level, .. } => level,
        _ => Level::ReadCommitted,
    }
}

/// Whether this is the number of the command there.
pub fn is_number_in(block: Block, cid: Cid) -> bool
    requires { commands_in block + 1 < 2 ^ 64 }
    ensures { IsTrue result ↔ (cid ≡ cid_of (state_in block)) }
{
    match block {
        Block::Inside { commands, .. } => cid.0 as u64 == commands as u64 + 1,
        _ => cid.0 == 1,
    }
}

fn cid_behind(commands: usize) -> Cid
    requires { commands + 1 < 2 ^ 32 }
    ensures { result.0 ≡ commands + 1 }
{
    Cid(commands as u32 + 1)
}

/// The number of the command there.
pub fn number_in(block: Block) -> Cid
    requires { HasNumber (state_in block) }
    ensures { result ≡ cid_of (state_in block) }
{
    match block {
        Block::Inside { commands, .. } => cid_behind(commands),
        _ => Cid(1),
    }
}

/// The transaction that the session is in.
pub fn transaction_at(moment: &Moment<'_, '_>, session: SessionId) -> Option<Gxid>
    ensures { result ≡ transaction_of (state_of moment.now.script.now session moment.now.before.now) session moment.now.before.now }
{
    let standing = standing_at(moment, session);
    match standing.block {
        Block::Outside if !standing.begun => None,
        Block::Failed => None,
        _ => standing.started,
    }
}

/// Whether the session is in this transaction.
pub fn is_in(moment: &Moment<'_, '_>, session: SessionId, gxid: Gxid) -> bool
    ensures { IsTrue result ↔ (transaction_of (state_at moment.now.script.now session (point_of moment.now)) session (before (point_of moment.now)) ≡ Some gxid) }
{
    transaction_at(moment, session) == Some(gxid)
}

/// Whether the line draws a transaction there.
pub fn draws(block: Block, stmt: &Stmt) -> bool
    ensures { result ≡ may_draw (state_in block) stmt.now }
{
    match (block, stmt) {
        (Block::Outside, Stmt::Begin(_)) => true,
        (Block::Outside, _) => is_on_rows(stmt),
        _ => false,
    }
}

/// Whether a transaction may commit with the line there.
pub fn may_commit(block: Block, stmt: &Stmt) -> bool
    ensures { result ≡ can_commit (state_in block) stmt.now }
{
    match (block, stmt) {
        (Block::Outside, _) => is_on_rows(stmt),
        (Block::Inside { .. }, Stmt::Commit) => true,
        _ => false,
    }
}

/// Whether a transaction may abort with the line there.
pub fn may_abort(block: Block, stmt: &Stmt) -> bool
    ensures { result ≡ can_abort (state_in block) stmt.now }
{
    match (block, stmt) {
        (Block::Inside { .. }, Stmt::Commit | Stmt::Rollback) => true,
        _ => is_command(block, stmt),
    }
}

/// Whether the session is in a block, a failed one included.
pub fn is_in_block(block: Block) -> bool
    ensures { result ≡ has_block (state_in block) }
{
    match block {
        Block::Outside => false,
        _ => true,
    }
}
