// Where a session stands behind the marks of a run.
ghost use Rattle.std.specs.Prelude.{◌≡◌, ◌+◌, ◌<◌, ◌≤◌, ◌^◌, ◌∷◌, [], None, false, length};
ghost use Rattle.std.specs.Option.{option_copied};
ghost use Rattle.gx_store.specs.declared.mark.Mark.TheVariants.{Answer, Start};
ghost use Rattle.gx_store.specs.Lines.{state_after, state_after_line, stmt_of};
ghost use Rattle.gx_legal.specs.Standings.{HasRoom, IsMoved, IsStanding, commands_in, state_in};

use gx_ids::{Gxid, SessionId};
use gx_script::{Line, Script};
use gx_store::{Mark, StmtAnswer};
use gx_tree::{Level, Stmt};

/// Where a session stands between its lines: outside a block, in one of a level after so many of its commands, or in one that has failed.
#[derive(Clone, Copy)]
pub enum Block {
    Outside,
    Inside { level: Level, commands: usize },
    Failed,
}

/// Where a session stands, whether it has started a transaction since its last answer, the one that it started last, and how many of its
/// lines were answered.
#[derive(Clone, Copy)]
pub struct Standing {
    pub block: Block,
    pub begun: bool,
    pub started: Option<Gxid>,
    pub answered: usize,
}

/// The statement of the session's line of this number.
pub fn stmt_at(lines: &[Line], session: SessionId, number: usize) -> Option<&Stmt>
    ensures { option_copied result ≡ stmt_of session number lines.now }
{
    for line in lines {
        if line.session.0 == session.0 && line.number as usize == number {
            return Some(&line.stmt);
        }
    }
    None
}

fn after_outside(stmt: &Stmt, reply: &StmtAnswer) -> Block
    ensures is { state_in result ≡ state_after (state_in Block.Outside) stmt.now reply.now }
    ensures room { commands_in result ≡ 0 }
{
    match stmt {
        Stmt::Begin(level) => Block::Inside {
            level: *level,
            commands: 0,
        },
        _ => Block::Outside,
    }
}

fn after_inside(level: Level, commands: usize, stmt: &Stmt, reply: &StmtAnswer) -> Block
    requires { commands + 1 < 2 ^ 64 }
    ensures is { state_in result ≡ state_after (state_in (Block.Inside level commands)) stmt.now reply.now }
    ensures room { commands_in result ≤ commands + 1 }
{
    match (stmt, reply) {
        (Stmt::Begin(_), _) => Block::Inside { level, commands },
        (Stmt::Commit, _) | (Stmt::Rollback, _) => Block::Outside,
        (_, StmtAnswer::Refused(_)) => Block::Failed,
        _ => Block::Inside {
            level,
            commands: commands + 1,
        },
    }
}

fn after_failed(stmt: &Stmt, reply: &StmtAnswer) -> Block
    ensures is { state_in result ≡ state_after (state_in Block.Failed) stmt.now reply.now }
    ensures room { commands_in result ≡ 0 }
{
    match stmt {
        Stmt::Commit | Stmt::Rollback => Block::Outside,
        _ => Block::Failed,
    }
}

fn block_after(block: Block, stmt: &Stmt, reply: &StmtAnswer) -> Block
    requires { commands_in block + 1 < 2 ^ 64 }
    ensures is { state_in result ≡ state_after (state_in block) stmt.now reply.now }
    ensures room { commands_in result ≤ commands_in block + 1 }
{
    match block {
        Block::Outside => after_outside(stmt, reply),
        Block::Inside { level, commands } => after_inside(level, commands, stmt, reply),
        Block::Failed => after_failed(stmt, reply),
    }
}

// Where the session stands once its line of a number has an answer.
fn block_behind(block: Block, stmt: Option<&Stmt>, reply: &StmtAnswer) -> Block
    requires { commands_in block + 1 < 2 ^ 64 }
    ensures is { state_in result ≡ state_after_line (state_in block) (option_copied stmt.entry) reply.now }
    ensures room { commands_in result ≤ commands_in block + 1 }
{
    match stmt {
        Some(stmt) => block_after(block, stmt, reply),
        None => block,
    }
}

fn begin(
    _script: &Script,
    standing: Standing,
    session: SessionId,
    starter: SessionId,
    gxid: Gxid,
) -> Standing
    ensures is { IsMoved _script.now session standing (Start gxid starter ∷ []) result }
    ensures room { HasRoom standing result }
{
    if starter.0 == session.0 {
        Standing {
            begun: true,
            started: Some(gxid),
            ..standing
        }
    } else {
        standing
    }
}

fn answered(
    script: &Script,
    standing: Standing,
    session: SessionId,
    line: (SessionId, u32),
    reply: &StmtAnswer,
) -> Standing
    requires commands { commands_in standing.block + 1 < 2 ^ 64 }
    requires answers { standing.answered + 1 < 2 ^ 64 }
    ensures is { IsMoved script.now session standing (Answer line.0 line.1 reply.now ∷ []) result }
    ensures room { HasRoom standing result }
{
    if line.0.0 != session.0 {
        return standing;
    }
    let stmt = stmt_at(script.lines.as_slice(), session, line.1 as usize);
    Standing {
        block: block_behind(standing.block, stmt, reply),
        begun: false,
        started: standing.started,
        answered: standing.answered + 1,
    }
}

/// Where the session stands behind one more mark.
pub fn moved(script: &Script, standing: Standing, session: SessionId, mark: &Mark) -> Standing
    requires commands { commands_in standing.block + 1 < 2 ^ 64 }
    requires answers { standing.answered + 1 < 2 ^ 64 }
    ensures is { IsMoved script.now session standing (mark.now ∷ []) result }
    ensures room { HasRoom standing result }
{
    match mark {
        Mark::Start {
            gxid,
            session: starter,
        } => begin(script, standing, session, *starter, *gxid),
        Mark::Answer {
            session: answered_one,
            number,
            answer,
        } => answered(script, standing, session, (*answered_one, *number), answer),
        _ => standing,
    }
}

/// Where a session stands before all marks.
pub fn no_standing() -> Standing
    ensures { result ≡ record { block = Block.Outside; begun = false; started = None; answered = 0 } }
{
    Standing {
        block: Block::Outside,
        begun: false,
        started: None,
        answered: 0,
    }
}

/// Where the session stands behind these marks.
pub fn standing_of(script: &Script, session: SessionId, marks: &[Mark]) -> Standing
    ensures is { IsStanding script.now session marks.now result }
    ensures answers { result.answered ≤ length marks.now }
    ensures commands { commands_in result.block ≤ length marks.now }
{
    let mut standing = no_standing();
    for mark in marks {
        standing = moved(script, standing, session, mark);
    }
    standing
}
