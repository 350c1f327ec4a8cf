// What a line does that has started.
ghost use Rattle.std.specs.Prelude.{◌≡◌, ◌≤◌, ◌<◌, ◌^◌, ◌∷◌, [], length, IfOk, OnOk};
ghost use Rattle.gx_dtx.specs.Table.{IsActive};
ghost use Rattle.gx_store.specs.Language.{IsScript};
ghost use Rattle.gx_rules.specs.AtCoordinator as turns;
ghost use Rattle.gx_coord.specs.Books.{coord_of, stmt_at};
ghost use Rattle.gx_coord.specs.Lines.{MayAsk, MaySend, closes_block};
ghost use Rattle.gx_coord.specs.Turns.{IsReady, IsTurn};

use crate::books::find_session;
use crate::coord::Coord;
use crate::dispatch::dispatch;
use crate::ends::commit;
use crate::lines::{abort, answer_at_once, begin, plain_answer};
use crate::locking::give_back;
use gx_ids::{Mem, Seq, SessionId};
use gx_msg::Out;
use gx_script::{LineStep, Script};
use gx_store::{Mark, Refused, StmtAnswer};
use gx_tree::Level;
use std::alloc::Global;

// The line has its answer, and nothing is sent.
fn tell(
    alloc: Global,
    coord: &mut Coord,
    id: SessionId,
    answer: StmtAnswer,
    marks: &mut Vec<Mark>,
) -> Mem<Seq<Out>>
    ensures turn { OnOk result (IsTurn coord.old coord.new marks.old.items marks.new.items (turns.answers_at_once (coord_of coord.old) id answer)) }
    ensures outs { IfOk result (λ outs. outs ≡ []) }
{
    answer_at_once(coord, id, answer, marks)?;
    Ok(Seq::new(alloc))
}

// A block opens.
fn open_block(
    alloc: Global,
    coord: &mut Coord,
    id: SessionId,
    level: Level,
    marks: &mut Vec<Mark>,
) -> Mem<Seq<Out>>
    requires drawn { coord.old.dtx.next.0 ≤ 2 ^ 62 }
    requires session { id.0 < length coord.old.sessions.items }
    ensures turn { OnOk result (IsTurn coord.old coord.new marks.old.items marks.new.items (turns.behind (Mark.Start coord.old.dtx.next id ∷ [])
        (turns.answers_at_once (turns.begins (coord_of coord.old) id level) id StmtAnswer.Begin))) }
    ensures outs { IfOk result (λ outs. outs ≡ []) }
{
    begin(alloc, coord, id, level, marks)?;
    answer_at_once(coord, id, StmtAnswer::Begin, marks)?;
    Ok(Seq::new(alloc))
}

// A session's block is rolled back.
fn close_block(coord: &mut Coord, id: SessionId, marks: &mut Vec<Mark>) -> Mem<Seq<Out>>
    requires { IsActive coord.old.dtx ((coord_of coord.old).sessions id.0).transaction }
    ensures turn { OnOk result (IsTurn coord.old coord.new marks.old.items marks.new.items (closes_block (coord_of coord.old) id)) }
    ensures outs { IfOk result (λ outs. outs ≡ (closes_block (coord_of coord.old) id).outs) }
{
    let session = find_session(coord, id);
    let outs = abort(coord, session.transaction, marks)?;
    answer_at_once(coord, id, StmtAnswer::Rollback, marks)?;
    give_back(coord, session.transaction, marks)?;
    Ok(outs)
}

// A session's block commits.
fn commit_block(
    alloc: Global,
    script: &Script,
    coord: &mut Coord,
    id: SessionId,
    marks: &mut Vec<Mark>,
) -> Mem<Seq<Out>>
    requires same { coord.old.script.value ≡ script.now }
    requires ready { IsReady (coord_of coord.old) ((coord_of coord.old).sessions id.0).transaction }
    ensures turn { OnOk result (IsTurn coord.old coord.new marks.old.items marks.new.items (turns.commits (coord_of coord.old) ((coord_of coord.old).sessions id.0).transaction)) }
    ensures outs { IfOk result (λ outs. outs ≡ (turns.commits (coord_of coord.old) ((coord_of coord.old).sessions id.0).transaction).outs) }
{
    let session = find_session(coord, id);
    commit(alloc, script, coord, session.transaction, marks)
}

// A command of a block goes out.
fn send_in_block(
    alloc: Global,
    coord: &mut Coord,
    id: SessionId,
    place: usize,
    marks: &mut Vec<Mark>,
) -> Mem<Seq<Out>>
    requires language { IsScript coord.old.script.value }
    requires inside { place < length coord.old.script.value.lines }
    requires may { MaySend (coord_of coord.old) ((coord_of coord.old).sessions id.0).transaction (stmt_at coord.old.script.value.lines place) }
    ensures turn { OnOk result (IsTurn coord.old coord.new marks.old.items marks.new.items (turns.dispatches coord.old.script.value
        (coord_of coord.old) ((coord_of coord.old).sessions id.0).transaction (stmt_at coord.old.script.value.lines place))) }
    ensures outs { IfOk result (λ outs. outs ≡ (turns.dispatches coord.old.script.value (coord_of coord.old)
        ((coord_of coord.old).sessions id.0).transaction (stmt_at coord.old.script.value.lines place)).outs) }
{
    let session = find_session(coord, id);
    dispatch(alloc, coord, session.transaction, place, marks)
}

// A command goes out that is the only one of its transaction.
fn send_alone(
    alloc: Global,
    coord: &mut Coord,
    id: SessionId,
    place: usize,
    marks: &mut Vec<Mark>,
) -> Mem<Seq<Out>>
    requires language { IsScript coord.old.script.value }
    requires inside { place < length coord.old.script.value.lines }
    requires drawn { coord.old.dtx.next.0 ≤ 2 ^ 62 }
    requires session { id.0 < length coord.old.sessions.items }
    requires may { MaySend (turns.begins (coord_of coord.old) id Level.ReadCommitted) coord.old.dtx.next (stmt_at coord.old.script.value.lines place) }
    ensures turn { OnOk result (IsTurn coord.old coord.new marks.old.items marks.new.items (turns.behind (Mark.Start coord.old.dtx.next id ∷ [])
        (turns.dispatches coord.old.script.value (turns.begins (coord_of coord.old) id Level.ReadCommitted) coord.old.dtx.next
        (stmt_at coord.old.script.value.lines place)))) }
    ensures outs { IfOk result
        (λ outs. outs ≡ (turns.dispatches coord.old.script.value (turns.begins (coord_of coord.old) id Level.ReadCommitted) coord.old.dtx.next
        (stmt_at coord.old.script.value.lines place)).outs) }
{
    let gxid = begin(alloc, coord, id, Level::ReadCommitted, marks)?;
    dispatch(alloc, coord, gxid, place, marks)
}

// By what the line asks for.
pub(crate) fn ask(
    alloc: Global,
    script: &Script,
    coord: &mut Coord,
    id: SessionId,
    place: usize,
    asked: LineStep,
    marks: &mut Vec<Mark>,
) -> Mem<Seq<Out>>
    requires same { coord.old.script.value ≡ script.now }
    requires language { IsScript coord.old.script.value }
    requires inside { place < length coord.old.script.value.lines }
    requires drawn { coord.old.dtx.next.0 ≤ 2 ^ 62 }
    requires session { id.0 < length coord.old.sessions.items }
    requires may { MayAsk (coord_of coord.old) id (stmt_at coord.old.script.value.lines place) asked }
    ensures turn { OnOk result (IsTurn coord.old coord.new marks.old.items marks.new.items (turns.on_line coord.old.script.value
        (coord_of coord.old) id (stmt_at coord.old.script.value.lines place) asked)) }
    ensures outs { IfOk result (λ outs. outs ≡ (turns.on_line coord.old.script.value (coord_of coord.old) id (stmt_at coord.old.script.value.lines place) asked).outs) }
{
    match asked {
        LineStep::Answer(plain) => tell(alloc, coord, id, plain_answer(plain), marks),
        LineStep::InFailedBlock => {
            let answer = StmtAnswer::Refused(Refused::InFailedBlock);
            tell(alloc, coord, id, answer, marks)
        }
        LineStep::NotInBlock => {
            let answer = StmtAnswer::Refused(Refused::NotInBlock);
            tell(alloc, coord, id, answer, marks)
        }
        LineStep::BeginBlock(level) => open_block(alloc, coord, id, level, marks),
        LineStep::CommitBlock => commit_block(alloc, script, coord, id, marks),
        LineStep::RollbackBlock => close_block(coord, id, marks),
        LineStep::Command { alone } => {
            if alone {
                send_alone(alloc, coord, id, place, marks)
            } else {
                send_in_block(alloc, coord, id, place, marks)
            }
        }
    }
}
