// What decides whether a line may have an answer.
ghost use Rattle.std.specs.Prelude.{◌≡◌};
ghost use Rattle.gx_legal.specs.Answers.{judged_failed, judged_inside, judged_outside, judged_refusal, judged_reply, judged};
ghost use Rattle.gx_legal.specs.Standings.{state_in};

use crate::standing::Block;
use gx_store::{Refused, StmtAnswer};
use gx_tree::Stmt;

/// By what an answer to a line is judged, which the line, the answer and the session's block tell.
#[derive(Clone, Copy)]
pub enum Judgement {
    /// It may stand.
    Holds,
    /// It may not.
    Fails,
    /// The session has begun a transaction.
    Begun,
    /// The session's block has committed in the step.
    Committed,
    /// The session's block has aborted in the step.
    Aborted,
    /// The line is refused, for a cause.
    Refused(Refused),
    /// The line is a command, which has succeeded.
    Done,
}

fn judge_reply(answer: &StmtAnswer) -> Judgement
    ensures { result ≡ judged_reply answer.now }
{
    match answer {
        StmtAnswer::Refused(reason) => Judgement::Refused(*reason),
        _ => Judgement::Done,
    }
}

fn judge_outside(line: &Stmt, answer: &StmtAnswer) -> Judgement
    ensures { result ≡ judged_outside line.now answer.now }
{
    match (line, answer) {
        (Stmt::Begin(_), StmtAnswer::Begin) => Judgement::Begun,
        (Stmt::Commit, StmtAnswer::Commit) => Judgement::Holds,
        (Stmt::Rollback, StmtAnswer::Rollback) => Judgement::Holds,
        (Stmt::Lock(_, _), StmtAnswer::Refused(Refused::NotInBlock)) => Judgement::Holds,
        _ => judge_reply(answer),
    }
}

fn judge_inside(line: &Stmt, answer: &StmtAnswer) -> Judgement
    ensures { result ≡ judged_inside line.now answer.now }
{
    match (line, answer) {
        (Stmt::Begin(_), StmtAnswer::Begin) => Judgement::Holds,
        (Stmt::Commit, StmtAnswer::Commit) => Judgement::Committed,
        (Stmt::Rollback, StmtAnswer::Rollback) => Judgement::Aborted,
        _ => judge_reply(answer),
    }
}

fn judge_failed(line: &Stmt, answer: &StmtAnswer) -> Judgement
    ensures { result ≡ judged_failed line.now answer.now }
{
    match (line, answer) {
        (Stmt::Commit, StmtAnswer::Rollback) => Judgement::Holds,
        (Stmt::Rollback, StmtAnswer::Rollback) => Judgement::Holds,
        (Stmt::Commit, _) => Judgement::Fails,
        (Stmt::Rollback, _) => Judgement::Fails,
        (_, StmtAnswer::Refused(Refused::InFailedBlock)) => Judgement::Holds,
        _ => Judgement::Fails,
    }
}

/// By what the answer to the line is judged in such a block.
pub fn judge(block: Block, line: &Stmt, answer: &StmtAnswer) -> Judgement
    ensures { result ≡ judged (state_in block) line.now answer.now }
{
    match block {
        Block::Outside => judge_outside(line, answer),
        Block::Inside { .. } => judge_inside(line, answer),
        Block::Failed => judge_failed(line, answer),
    }
}

/// By what a refusal of the line is judged there.
pub fn judge_refusal(block: Block, line: &Stmt, reason: Refused) -> Judgement
    ensures { result ≡ judged_refusal (state_in block) line.now reason }
{
    match (block, line, reason) {
        (Block::Outside, Stmt::Lock(_, _), Refused::NotInBlock) => Judgement::Holds,
        (Block::Failed, Stmt::Commit, _) => Judgement::Fails,
        (Block::Failed, Stmt::Rollback, _) => Judgement::Fails,
        (Block::Failed, _, Refused::InFailedBlock) => Judgement::Holds,
        (Block::Failed, _, _) => Judgement::Fails,
        _ => Judgement::Refused(reason),
    }
}
