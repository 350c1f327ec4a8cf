// A slice takes its table's lock and runs, or waits for it; and one that has waited, there or at a row, goes on.
ghost use Rattle.std.specs.Prelude.{[], ◌∷◌, ◌≡◌, true, false, None, IfOk, OnOk};
ghost use Rattle.std.specs.List.{list_any};
ghost use Rattle.gx_waits.specs.Claims.{is_free, is_of};
ghost use Rattle.gx_locks.specs.Locks.{may_take, wait_of};
ghost use Rattle.gx_node.specs.Locking.{asked_locks, asked_mark, granted_locks, granted_marks, is_on_transaction};
ghost use Rattle.gx_rules.specs.AtSegment.{resumes};
ghost use Rattle.gx_rules.specs.Segments.{local_of};
ghost use Rattle.gx_node.specs.Phases.{suspended_of};
ghost use Rattle.gx_rules.specs.Running.{goes_on, requests, suspended_slice};
ghost use Rattle.gx_slices.specs.Agrees.{IsHeld};
ghost use Rattle.gx_slices.specs.Ran.{MayGoOn, MayRun};
ghost use Rattle.gx_segment.specs.Before.{Before};
ghost use Rattle.gx_segment.specs.Done.{HasDone, IsQuiet, came, answer_of};
ghost use Rattle.gx_segment.specs.Ways.{starts};

use crate::done::{Done, nothing, tell};
use gx_ids::{Gxid, Mem, Node};
use gx_node::{Suspended, ask_for, slice_lock, take_granted};
use gx_outside::{Gate, pass};
use gx_script::Script;
use gx_slices::{Held, Progress, go_on, suspend, wake};
use gx_store::Mark;
use gx_waits::Claim;
use std::alloc::Global;
use std::mem;

// The slice of a new command.
pub(crate) fn start<G: Gate>(
    alloc: Global,
    node: Node,
    script: &Script,
    held: &mut Held,
    gxid: Gxid,
    command: Suspended,
    gate: &G,
    marks: &mut Vec<Mark>,
) -> Mem<Done>
    ghost was: { Before }
    requires script { script.now ≡ was.script }
    requires held { IsHeld was.script.tables held.old was.seg }
    requires may { MayRun was.script.tables was.seg gxid command.cid command.snapshot command.slice }
    requires fresh { suspended_of command ≡ suspended_slice command.cid command.level command.snapshot command.slice }
    requires node { node ≡ was.seg.node }
    requires blank { marks.old.items ≡ [] }
    ensures done { IfOk result (λ done. HasDone was.script.tables held.new was.seg.horizon (came marks.new.items done) (starts was.script was.seg gxid command)) }
    ensures quiet { IfOk result (λ done. IsQuiet done.fails (starts was.script was.seg gxid command)) }
{
    let wanted = slice_lock(script, gxid, &command.slice);
    request(
        alloc, node, script, held, gxid, command, wanted, gate, marks,
    )
}

// It asks for its lock.
fn request<G: Gate>(
    alloc: Global,
    node: Node,
    script: &Script,
    held: &mut Held,
    gxid: Gxid,
    command: Suspended,
    wanted: Claim,
    gate: &G,
    marks: &mut Vec<Mark>,
) -> Mem<Done>
    ghost was: { Before }
    requires script { script.now ≡ was.script }
    requires held { IsHeld was.script.tables held.old was.seg }
    requires may { MayRun was.script.tables was.seg gxid command.cid command.snapshot command.slice }
    requires fresh { suspended_of command ≡ suspended_slice command.cid command.level command.snapshot command.slice }
    requires own { wanted.gxid ≡ gxid }
    requires on_table { is_on_transaction wanted.object ≡ false }
    requires node { node ≡ was.seg.node }
    requires blank { marks.old.items ≡ [] }
    ensures done { IfOk result (λ done. HasDone was.script.tables held.new was.seg.horizon (came marks.new.items done)
        (requests was.seg gxid command.cid command.level command.snapshot command.slice wanted)) }
    ensures quiet { IfOk result (λ done. IsQuiet done.fails (requests was.seg gxid command.cid command.level command.snapshot command.slice wanted)) }
{
    match ask_for(node, &mut held.locks, wanted, marks) {
        Ok(granted) => {
            if granted {
                let done = proceed(alloc, node, script, held, gxid, command, gate, marks)?;
                Ok(done)
            } else {
                suspend(alloc, held, gxid, command)?;
                Ok(nothing())
            }
        }
        Err(fault) => {
            drop(command);
            Err(fault)
        }
    }
}

// It goes on, behind the marks so far.
fn proceed<G: Gate>(
    alloc: Global,
    node: Node,
    script: &Script,
    held: &mut Held,
    gxid: Gxid,
    command: Suspended,
    gate: &G,
    marks: &mut Vec<Mark>,
) -> Mem<Done>
    ghost was: { Before }
    requires script { script.now ≡ was.script }
    requires held { IsHeld was.script.tables held.old was.seg }
    requires may { MayGoOn was.script.tables was.seg gxid (suspended_of command) }
    requires node { node ≡ was.seg.node }
    ensures done { IfOk result (λ done. HasDone was.script.tables held.new was.seg.horizon (came marks.new.items done)
        (goes_on (record { seg = was.seg; marks = marks.old.items }) gxid (suspended_of command) command.row)) }
    ensures quiet { IfOk result (λ done. IsQuiet done.fails (goes_on (record { seg = was.seg; marks = marks.old.items }) gxid (suspended_of command) command.row)) }
{
    let passed = pass(gate, node);
    let tables = script.tables.as_slice();
    let given = mem::replace(marks, Vec::new(alloc));
    let progress = go_on(alloc, tables, passed, held, gxid, command, given)?;
    Ok(done_of(gxid, progress, marks))
}

// The marks stand in the list, and the answer is told.
fn done_of(gxid: Gxid, progress: Progress, marks: &mut Vec<Mark>) -> Done
    ensures { came marks.new.items result ≡ record { marks = progress.marks; answer = answer_of gxid progress.reply; fails = false } }
{
    let Progress { marks: made, reply } = progress;
    drop(mem::replace(marks, made.into_vec()));
    tell(gxid, reply)
}

// A slice that gets what it has waited for goes on.
pub(crate) fn resume<G: Gate>(
    alloc: Global,
    node: Node,
    script: &Script,
    held: &mut Held,
    gxid: Gxid,
    gate: &G,
    marks: &mut Vec<Mark>,
) -> Mem<Done>
    ghost was: { Before }
    requires script { script.now ≡ was.script }
    requires held { IsHeld was.script.tables held.old was.seg }
    requires ready { may_take was.seg.locks gxid ≡ true }
    requires node { node ≡ was.seg.node }
    requires blank { marks.old.items ≡ [] }
    ensures done { IfOk result (λ done. HasDone was.script.tables held.new was.seg.horizon (came marks.new.items done)
        (resumes was.seg gxid (wait_of was.seg.locks gxid) (local_of was.seg gxid).suspended)) }
    ensures quiet { IfOk result (λ done. IsQuiet done.fails (resumes was.seg gxid (wait_of was.seg.locks gxid) (local_of was.seg gxid).suspended)) }
{
    let waiting = wake(alloc, held, gxid)?;
    match waiting {
        Some(command) => match take_granted(node, &mut held.locks, gxid, marks) {
            Ok(()) => {
                let done = proceed(alloc, node, script, held, gxid, command, gate, marks)?;
                Ok(done)
            }
            Err(fault) => {
                drop(command);
                Err(fault)
            }
        },
        None => unreachable!(),
    }
}
