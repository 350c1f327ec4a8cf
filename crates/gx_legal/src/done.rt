// Whether a command has succeeded, and whether it is back from each node to which it went.
ghost use Rattle.std.specs.Prelude.{◌≡◌, ◌↔◌, IfOk, IsTrue};
ghost use Rattle.std.specs.List.{AllByRecursion};
ghost use Rattle.gx_meaning.specs.Statements.{IsStmtOf};
ghost use Rattle.gx_store.specs.Answers.{IsAtItsEnd};
ghost use Rattle.gx_store.specs.Commands.{state_at};
ghost use Rattle.gx_store.specs.Language.{IsScript};
ghost use Rattle.gx_store.specs.Parts.{HasReturned, HasSucceeded, IsLineBack};
ghost use Rattle.gx_store.specs.Protocol.{IsReturned};
ghost use Rattle.gx_legal.specs.Done.{HasSucceededBy, IsBack, IsPieceBack};
ghost use Rattle.gx_legal.specs.Moments.{point_of};
ghost use Rattle.gx_legal.specs.Standings.{HasNumber, state_in};
ghost use Rattle.gx_legal.specs.Tables.{IsShort};

use crate::command::Command;
use crate::heard::has_heard;
use crate::lines::{is_command, level_in, line_under_way, number_in, transaction_at};
use crate::marks::is_committed;
use crate::moment::Moment;
use crate::own::own_marks;
use crate::pieces::pieces_of;
use crate::seats::{is_ended_at, standing_at};
use crate::standing::Block;
use crate::told::tells;
use crate::word::{Report, Word};
use gx_ids::{Gxid, Mem, Node, SessionId};
use gx_meaning::Piece;
use gx_store::StmtAnswer;
use gx_tree::Stmt;
use std::alloc::Global;

fn is_at_its_end(block: Block, moment: &Moment<'_, '_>, gxid: Gxid) -> bool
    ensures { IsTrue result ↔ IsAtItsEnd (state_in block) (point_of moment.now) gxid }
{
    match block {
        Block::Outside => is_committed(moment.earlier, gxid),
        Block::Inside { .. } | Block::Failed => !is_ended_at(moment, gxid),
    }
}

fn is_returned(moment: &Moment<'_, '_>, command: Command, node: Node) -> bool
    ensures { IsTrue result ↔ IsReturned (point_of moment.now) command.gxid command.cid node }
{
    let report = Report {
        gxid: command.gxid,
        word: Word::Done(command.cid),
        from: node,
        to: Node(0),
    };
    has_heard(moment, report)
}

fn are_back(moment: &Moment<'_, '_>, command: Command, pieces: &[Piece]) -> bool
    ensures { IsTrue result ↔ AllByRecursion (IsPieceBack (point_of moment.now) command.gxid command.cid) pieces.now }
{
    for piece in pieces {
        if !is_returned(moment, command, piece.node) {
            return false;
        }
    }
    true
}

// Whether each node to which the command goes has answered that it is done.
fn is_back(alloc: Global, moment: &Moment<'_, '_>, command: Command, stmt: &Stmt) -> Mem<bool>
    requires script { IsScript moment.now.script.now }
    requires line { IsStmtOf moment.now.script.now.tables stmt.now }
    requires short { IsShort stmt.now }
    ensures { IfOk result (λ is. IsTrue is ↔ IsBack moment.now.script.now (point_of moment.now) command.gxid command.cid stmt.now) }
{
    let pieces = pieces_of(alloc, moment.script, command, stmt)?;
    Ok(are_back(moment, command, &pieces))
}

// Whether the transaction's command did what its answer says.
fn has_succeeded_by(
    alloc: Global,
    moment: &Moment<'_, '_>,
    block: Block,
    gxid: Gxid,
    line: &Stmt,
    answer: &StmtAnswer,
) -> Mem<bool>
    requires { HasNumber (state_in block) }
    ensures { IfOk result (λ is. IsTrue is ↔ HasSucceededBy moment.now.script.now (point_of moment.now) (state_in block) gxid line.now answer.now) }
{
    if !is_at_its_end(block, moment, gxid) {
        return Ok(false);
    }
    let command = Command {
        level: level_in(block),
        gxid,
        cid: number_in(block),
    };
    tells(
        alloc,
        moment.script,
        moment.before,
        own_marks(moment, gxid),
        command,
        line,
        answer,
    )
}

/// Whether the session's line is a command, which succeeded with this answer.
pub fn has_succeeded(
    alloc: Global,
    moment: &Moment<'_, '_>,
    session: SessionId,
    line: &Stmt,
    answer: &StmtAnswer,
) -> Mem<bool>
    requires { HasNumber (state_at moment.now.script.now session (point_of moment.now)) }
    ensures { IfOk result (λ is. IsTrue is ↔ HasSucceeded moment.now.script.now (point_of moment.now) session (state_at moment.now.script.now session (point_of moment.now)) line.now answer.now) }
{
    let block = standing_at(moment, session).block;
    if !is_command(block, line) {
        return Ok(false);
    }
    let Some(gxid) = transaction_at(moment, session) else {
        return Ok(false);
    };
    has_succeeded_by(alloc, moment, block, gxid, line, answer)
}

// Where the line is a command, whether it is back.
fn is_line_back(
    alloc: Global,
    moment: &Moment<'_, '_>,
    session: SessionId,
    line: &Stmt,
) -> Mem<bool>
    requires script { IsScript moment.now.script.now }
    requires line { IsStmtOf moment.now.script.now.tables line.now }
    requires short { IsShort line.now }
    requires number { HasNumber (state_at moment.now.script.now session (point_of moment.now)) }
    ensures { IfOk result (λ is. IsTrue is ↔ IsLineBack moment.now.script.now (point_of moment.now) session line.now) }
{
    let block = standing_at(moment, session).block;
    if !is_command(block, line) {
        return Ok(true);
    }
    let Some(gxid) = transaction_at(moment, session) else {
        return Ok(true);
    };
    let command = Command {
        level: level_in(block),
        gxid,
        cid: number_in(block),
    };
    is_back(alloc, moment, command, line)
}

/// Whether each node to which the session's command goes has returned.
pub fn has_returned(alloc: Global, moment: &Moment<'_, '_>, session: SessionId) -> Mem<bool>
    requires { IsScript moment.now.script.now }
    ensures { IfOk result (λ is. IsTrue is ↔ HasReturned moment.now.script.now (point_of moment.now) session) }
{
    match line_under_way(moment, session) {
        Some(line) => is_line_back(alloc, moment, session, line),
        None => Ok(true),
    }
}
