// The ends of transactions.
ghost use Rattle.std.specs.Prelude.{◌≡◌, ◌<◌, ◌++◌, ◌∷◌, [], true, length, IfOk, OnOk};
ghost use Rattle.gx_dtx.specs.Rules.{AreWriters, on_commit};
ghost use Rattle.gx_dtx.specs.Table.{IsActive};
ghost use Rattle.gx_script.specs.Session.{IsIdle, after_done as done_state, after_refused as refused_state};
ghost use Rattle.gx_rules.specs.AtCoordinator.{commits as commit_turn, failure_marks, follows as follow_turn, is_committed, is_refused};
ghost use Rattle.gx_rules.specs.Coordinators.{no_work, with_state, with_work};
ghost use Rattle.gx_coord.specs.Books.{IsFramed, coord_of};
ghost use Rattle.gx_coord.specs.Locking.{tells_commit, tells_refusal};
ghost use Rattle.gx_coord.specs.Turns.{IsFit, IsBusy, IsTurn, answers_line, called, has_called};

use crate::answers::{push_answer, told_at_commit};
use crate::books::{find_session, forget_work, set_state};
use crate::coord::Coord;
use crate::locking::give_back;
use gx_dtx::{DtxOut, Outcome};
use gx_entries::find;
use gx_ids::{Gxid, Mem, Node, Seq, SessionId};
use gx_msg::Out;
use gx_script::{Script, SessionState};
use gx_store::{Mark, Refused, StmtAnswer};
use std::alloc::Global;

// The state of a session whose line has its answer, and whose line is refused.
pub(crate) fn after_done(state: SessionState) -> SessionState
    requires { IsIdle state → ⊥ }
    ensures { result ≡ done_state state }
{
    let mut state = state;
    state.on_done();
    state
}

pub(crate) fn after_refused(state: SessionState) -> SessionState
    requires { IsIdle state → ⊥ }
    ensures { result ≡ refused_state state }
{
    let mut state = state;
    state.on_refused();
    state
}

// The session of a transaction.
pub(crate) fn owner(coord: &Coord, gxid: Gxid) -> SessionId
    ensures { result ≡ ((coord_of coord.now).works gxid.0).session }
{
    match find(coord.works.as_slice(), gxid) {
        Some(work) => work.session,
        None => SessionId(0),
    }
}

// Of a transaction that has ended nothing is known, and its session stands so.
fn close(coord: &mut Coord, gxid: Gxid, id: SessionId, state: SessionState)
    requires { id.0 < length coord.old.sessions.items }
    ensures framed { IsFramed coord.old coord.new }
    ensures coord { coord_of coord.new ≡ with_state (with_work (coord_of coord.old) gxid no_work) id state }
{
    forget_work(coord, gxid);
    set_state(coord, id, state);
}

fn tell_commit(
    alloc: Global,
    script: &Script,
    coord: &mut Coord,
    gxid: Gxid,
    marks: &mut Vec<Mark>,
) -> Mem<()>
    requires same { coord.old.script.value ≡ script.now }
    requires busy { IsBusy (coord_of coord.old) gxid.0 }
    requires fits { IsFit ((coord_of coord.old).works gxid.0).command }
    ensures { OnOk result (IsTurn coord.old coord.new marks.old.items marks.new.items (tells_commit (coord_of coord.old) gxid)) }
{
    let id = owner(coord, gxid);
    let session = find_session(coord, id);
    marks.push(Mark::Commit { gxid })?;
    let answer = told_at_commit(alloc, script, coord, gxid, session.state.pending)?;
    push_answer(marks, id, session.lines, answer)?;
    close(coord, gxid, id, after_done(session.state));
    Ok(())
}

fn commit_line(
    alloc: Global,
    script: &Script,
    coord: &mut Coord,
    gxid: Gxid,
    marks: &mut Vec<Mark>,
) -> Mem<()>
    requires same { coord.old.script.value ≡ script.now }
    requires busy { IsBusy (coord_of coord.old) gxid.0 }
    requires fits { IsFit ((coord_of coord.old).works gxid.0).command }
    ensures { OnOk result (IsTurn coord.old coord.new marks.old.items marks.new.items (is_committed (coord_of coord.old) gxid (has_called coord.old))) }
{
    tell_commit(alloc, script, coord, gxid, marks)?;
    give_back(coord, gxid, marks)
}

pub(crate) fn refuse_line(
    coord: &mut Coord,
    gxid: Gxid,
    reason: Refused,
    marks: &mut Vec<Mark>,
) -> Mem<()>
    requires busy { IsBusy (coord_of coord.old) gxid.0 }
    ensures { OnOk result (IsTurn coord.old coord.new marks.old.items marks.new.items (is_refused (coord_of coord.old) gxid (has_called coord.old) [] reason)) }
{
    tell_refusal(coord, gxid, reason, marks)?;
    give_back(coord, gxid, marks)
}

fn tell_refusal(coord: &mut Coord, gxid: Gxid, reason: Refused, marks: &mut Vec<Mark>) -> Mem<()>
    requires busy { IsBusy (coord_of coord.old) gxid.0 }
    ensures { OnOk result (IsTurn coord.old coord.new marks.old.items marks.new.items (tells_refusal (coord_of coord.old) gxid reason)) }
{
    let id = owner(coord, gxid);
    let session = find_session(coord, id);
    marks.push(Mark::Abort { gxid })?;
    push_answer(marks, id, session.lines, StmtAnswer::Refused(reason))?;
    close(coord, gxid, id, after_refused(session.state));
    Ok(())
}

// The coordinator's own journal leaves a mark.
fn push_failure(marks: &mut Vec<Mark>, node: Node, gxid: Gxid) -> Mem<()>
    ensures { OnOk result (marks.new.items ≡ marks.old.items ++ failure_marks node gxid) }
{
    if node.0 == 0 {
        marks.push(Mark::JournalFailed {
            node: Node(0),
            gxid,
        })?;
    }
    Ok(())
}

fn refuse_for_journal(coord: &mut Coord, gxid: Gxid, node: Node, marks: &mut Vec<Mark>) -> Mem<()>
    requires busy { IsBusy (coord_of coord.old) gxid.0 }
    ensures { OnOk result (IsTurn coord.old coord.new marks.old.items marks.new.items (is_refused (coord_of coord.old) gxid (has_called coord.old)
        (failure_marks node gxid) (Refused.JournalFault node))) }
{
    push_failure(marks, node, gxid)?;
    refuse_line(coord, gxid, Refused::JournalFault(node), marks)
}

fn push_decided(marks: &mut Vec<Mark>, gxid: Gxid) -> Mem<()>
    ensures { OnOk result (marks.new.items ≡ marks.old.items ++ Mark.Decided gxid ∷ []) }
{
    marks.push(Mark::Decided { gxid })?;
    Ok(())
}

// What a call on the transactions has come to.
fn come_to(
    alloc: Global,
    script: &Script,
    coord: &mut Coord,
    gxid: Gxid,
    outcome: Outcome,
    marks: &mut Vec<Mark>,
) -> Mem<()>
    requires same { coord.old.script.value ≡ script.now }
    requires busy { answers_line outcome ≡ true → IsBusy (coord_of coord.old) gxid.0 }
    requires fits { IsFit ((coord_of coord.old).works gxid.0).command }
    ensures { OnOk result (IsTurn coord.old coord.new marks.old.items marks.new.items (follow_turn (coord_of coord.old) gxid (has_called coord.old) outcome)) }
{
    match outcome {
        Outcome::Pending => Ok(()),
        Outcome::Decided => push_decided(marks, gxid),
        Outcome::Committed => commit_line(alloc, script, coord, gxid, marks),
        Outcome::Refused(node) => refuse_for_journal(coord, gxid, node, marks),
        Outcome::Ended => Ok(()),
    }
}

// What it has come to, and what is to be sent for it.
pub(crate) fn follow(
    alloc: Global,
    script: &Script,
    coord: &mut Coord,
    gxid: Gxid,
    out: DtxOut,
    marks: &mut Vec<Mark>,
) -> Mem<Seq<Out>>
    requires same { coord.old.script.value ≡ script.now }
    requires busy { answers_line out.outcome ≡ true → IsBusy (coord_of coord.old) gxid.0 }
    requires fits { IsFit ((coord_of coord.old).works gxid.0).command }
    ensures turn { OnOk result (IsTurn coord.old coord.new marks.old.items marks.new.items (follow_turn (coord_of coord.old) gxid (called coord.old out) out.outcome)) }
    ensures outs { IfOk result (λ outs. outs ≡ (follow_turn (coord_of coord.old) gxid (called coord.old out) out.outcome).outs) }
{
    let DtxOut { outs, outcome } = out;
    match come_to(alloc, script, coord, gxid, outcome, marks) {
        Ok(()) => Ok(outs),
        Err(fault) => {
            drop(outs);
            Err(fault)
        }
    }
}

// A transaction commits where its writers are.
fn commit_writers(coord: &mut Coord, gxid: Gxid) -> Mem<DtxOut>
    requires active { IsActive coord.old.dtx gxid }
    requires writers { AreWriters coord.old.dtx gxid ((coord_of coord.old).works gxid.0).writers }
    ensures framed { OnOk result (IsFramed coord.old coord.new) }
    ensures coord { OnOk result (coord_of coord.new ≡ record (coord_of coord.old) { table = (on_commit coord.old.dtx gxid ((coord_of coord.old).works gxid.0).writers).table }) }
    ensures out { IfOk result (λ out. out ≡ (on_commit coord.old.dtx gxid ((coord_of coord.old).works gxid.0).writers).out) }
{
    match find(coord.works.as_slice(), gxid) {
        Some(work) => coord
            .dtx
            .commit(&mut coord.spare.outs, gxid, work.writers.as_slice()),
        None => coord.dtx.commit(&mut coord.spare.outs, gxid, &[]),
    }
}

pub(crate) fn commit(
    alloc: Global,
    script: &Script,
    coord: &mut Coord,
    gxid: Gxid,
    marks: &mut Vec<Mark>,
) -> Mem<Seq<Out>>
    requires same { coord.old.script.value ≡ script.now }
    requires active { IsActive coord.old.dtx gxid }
    requires writers { AreWriters coord.old.dtx gxid ((coord_of coord.old).works gxid.0).writers }
    requires busy { IsBusy (coord_of coord.old) gxid.0 }
    requires fits { IsFit ((coord_of coord.old).works gxid.0).command }
    ensures turn { OnOk result (IsTurn coord.old coord.new marks.old.items marks.new.items (commit_turn (coord_of coord.old) gxid)) }
    ensures outs { IfOk result (λ outs. outs ≡ (commit_turn (coord_of coord.old) gxid).outs) }
{
    let out = commit_writers(coord, gxid)?;
    follow(alloc, script, coord, gxid, out, marks)
}
