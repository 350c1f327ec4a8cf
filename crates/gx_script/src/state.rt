ghost use Rattle.std.specs.Prelude.{◌≡◌, IsTrue, ◌↔◌};
ghost use Rattle.gx_script.specs.Session.{IsIdle, after_done, after_line, after_refused, block_after as block_after_step, block_after_refusal as refused_block, idle_outside, line_step, pending_after as pending_of};

use crate::line_step::{LineStep, Plain};
use gx_tree::{Level, Stmt};

/// Where a session stands between its lines.
#[derive(Clone, Copy)]
pub enum Block {
    Outside,
    Open(Level),
    Failed,
}

/// What a session waits for.
#[derive(Clone, Copy)]
pub enum Pending {
    /// Nothing: the session is idle.
    Nothing,
    /// The end of a command.
    Command,
    /// The end of its block's commit.
    Commit,
}

/// A session, as the lines so far have left it.
#[derive(Clone, Copy)]
pub struct SessionState {
    pub block: Block,
    pub pending: Pending,
}

impl SessionState {
    /// A session that has done nothing.
    pub fn new() -> SessionState
        ensures { result ≡ idle_outside }
    {
        SessionState {
            block: Block::Outside,
            pending: Pending::Nothing,
        }
    }

    /// Whether it waits for nothing, so that its next line may start.
    pub fn idle(&self) -> bool
        ensures { IsTrue result ↔ IsIdle self.now }
    {
        matches!(self.pending, Pending::Nothing)
    }

    /// Starts a line.
    pub fn on_line(&mut self, stmt: &Stmt) -> LineStep
        requires { IsIdle self.old }
        ensures step { result ≡ line_step self.old.block stmt.now }
        ensures state { self.new ≡ after_line self.old.block (line_step self.old.block stmt.now) }
    {
        let step = step_of(self.block, stmt);
        self.block = block_after(self.block, step);
        self.pending = pending_after(step);
        step
    }

    /// Ends the line that the session waits for, without a refusal.
    pub fn on_done(&mut self)
        requires { IsIdle self.old → ⊥ }
        ensures { self.new ≡ after_done self.old }
    {
        if matches!(self.pending, Pending::Commit) {
            self.block = Block::Outside;
        }
        self.pending = Pending::Nothing;
    }

    /// Ends the line that the session waits for, by a refusal. A command's refusal makes its block fail; a commit's closes it.
    pub fn on_refused(&mut self)
        requires { IsIdle self.old → ⊥ }
        ensures { self.new ≡ after_refused self.old }
    {
        self.block = block_after_refusal(self.block, self.pending);
        self.pending = Pending::Nothing;
    }
}

// What the line asks for.
fn step_of(block: Block, stmt: &Stmt) -> LineStep
    ensures { result ≡ line_step block stmt.now }
{
    match block {
        Block::Outside => outside_step(stmt),
        Block::Open(level) => open_step(level, stmt),
        Block::Failed => failed_step(stmt),
    }
}

fn outside_step(stmt: &Stmt) -> LineStep
    ensures { result ≡ line_step Block.Outside stmt.now }
{
    match stmt {
        Stmt::Begin(level) => LineStep::BeginBlock(*level),
        Stmt::Commit => LineStep::Answer(Plain::Commit),
        Stmt::Rollback => LineStep::Answer(Plain::Rollback),
        Stmt::Lock(_, _) => LineStep::NotInBlock,
        _ => LineStep::Command { alone: true },
    }
}

fn open_step(_level: Level, stmt: &Stmt) -> LineStep
    ensures { result ≡ line_step (Block.Open _level) stmt.now }
{
    match stmt {
        Stmt::Begin(_) => LineStep::Answer(Plain::Begin),
        Stmt::Commit => LineStep::CommitBlock,
        Stmt::Rollback => LineStep::RollbackBlock,
        _ => LineStep::Command { alone: false },
    }
}

fn failed_step(stmt: &Stmt) -> LineStep
    ensures { result ≡ line_step Block.Failed stmt.now }
{
    match stmt {
        Stmt::Commit => LineStep::Answer(Plain::Rollback),
        Stmt::Rollback => LineStep::Answer(Plain::Rollback),
        _ => LineStep::InFailedBlock,
    }
}

// The block after a line has asked for this.
fn block_after(block: Block, step: LineStep) -> Block
    ensures { result ≡ block_after_step block step }
{
    match (block, step) {
        (Block::Outside, LineStep::BeginBlock(level)) => Block::Open(level),
        (Block::Open(_), LineStep::RollbackBlock) => Block::Outside,
        (Block::Failed, LineStep::Answer(_)) => Block::Outside,
        _ => block,
    }
}

fn pending_after(step: LineStep) -> Pending
    ensures { result ≡ pending_of step }
{
    match step {
        LineStep::CommitBlock => Pending::Commit,
        LineStep::Command { alone: _ } => Pending::Command,
        _ => Pending::Nothing,
    }
}

// The block after the refusal of what the session waits for.
fn block_after_refusal(block: Block, pending: Pending) -> Block
    ensures { result ≡ refused_block block pending }
{
    match (block, pending) {
        (_, Pending::Commit) => Block::Outside,
        (Block::Open(_), Pending::Command) => Block::Failed,
        _ => block,
    }
}
