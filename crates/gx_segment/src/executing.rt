// EXEC.
ghost use Rattle.std.specs.Prelude.{◌≡◌, ◌<◌, ◌≤◌, [], None, IfOk};
ghost use Rattle.std.specs.BTreeMap.{get};
ghost use Rattle.gx_ids.specs.declared.ids.Gxid.{Gxid};
ghost use Rattle.gx_dsnap.specs.Gxids.{gxid_cmp};
ghost use Rattle.gx_slices.specs.Store.{IsRaised, greater};
ghost use Rattle.gx_rules.specs.AtSegment.{raised};
ghost use Rattle.gx_node.specs.Phases.{suspended_of};
ghost use Rattle.gx_rules.specs.Running.{suspended_slice};
ghost use Rattle.gx_rules.specs.Segments.{local_of, tells_kept};
ghost use Rattle.gx_slices.specs.Agrees.{IsHeld};
ghost use Rattle.gx_segment.specs.Before.{Before};
ghost use Rattle.gx_segment.specs.Done.{HasDone, IsQuiet, came};
ghost use Rattle.gx_segment.specs.Ways.{MayStart, exec_turn, starts};

use crate::commands::{Way, find_way};
use crate::done::{Done, nothing, tell};
use crate::entries::kept_answer;
use crate::starting::start;
use gx_ids::{Gxid, Mem, Node};
use gx_node::Suspended;
use gx_outside::Gate;
use gx_rows::drop_below;
use gx_script::Script;
use gx_slices::Held;
use gx_store::Mark;
use std::alloc::Global;

// Takes a command's part for this segment.
pub(crate) fn exec<G: Gate>(
    alloc: Global,
    node: Node,
    script: &Script,
    held: &mut Held,
    horizon: &mut Gxid,
    gxid: Gxid,
    command: Suspended,
    low: Gxid,
    gate: &G,
    marks: &mut Vec<Mark>,
) -> Mem<Done>
    ghost was: { Before }
    requires script { script.now ≡ was.script }
    requires held { IsHeld was.script.tables held.old was.seg }
    requires horizon { horizon.old ≡ was.seg.horizon }
    requires fresh { suspended_of command ≡ suspended_slice command.cid command.level command.snapshot command.slice }
    requires node { node ≡ was.seg.node }
    requires blank { marks.old.items ≡ [] }
    ensures done { IfOk result (λ done. HasDone was.script.tables held.new horizon.new (came marks.new.items done) (exec_turn was.script was.seg gxid command low)) }
    ensures quiet { IfOk result (λ done. IsQuiet done.fails (exec_turn was.script was.seg gxid command low)) }
{
    match find_way(script, held, *horizon, gxid, &command, low) {
        Way::Runs => run(
            alloc, node, script, held, horizon, gxid, command, low, gate, marks,
        ),
        Way::Repeats => {
            drop(command);
            repeat(alloc, held, gxid)
        }
        Way::Nothing => {
            drop(command);
            Ok(nothing())
        }
    }
}

// What was kept is answered again.
fn repeat(alloc: Global, held: &Held, gxid: Gxid) -> Mem<Done>
    ghost was: { Before }
    requires held { IsHeld was.script.tables held.now was.seg }
    requires alive { was.seg.horizon.0 ≤ gxid.0 }
    ensures done { IfOk result (λ done. HasDone was.script.tables held.now was.seg.horizon (came [] done) (tells_kept was.seg gxid (local_of was.seg gxid).answer)) }
    ensures quiet { IfOk result (λ done. IsQuiet done.fails (tells_kept was.seg gxid (local_of was.seg gxid).answer)) }
{
    let kept = kept_answer(alloc, &held.entries, gxid)?;
    Ok(tell(gxid, kept))
}

// Raises the horizon, and starts the slice.
fn run<G: Gate>(
    alloc: Global,
    node: Node,
    script: &Script,
    held: &mut Held,
    horizon: &mut Gxid,
    gxid: Gxid,
    command: Suspended,
    low: Gxid,
    gate: &G,
    marks: &mut Vec<Mark>,
) -> Mem<Done>
    ghost was: { Before }
    requires script { script.now ≡ was.script }
    requires held { IsHeld was.script.tables held.old was.seg }
    requires horizon { horizon.old ≡ was.seg.horizon }
    requires may { MayStart was.script.tables (raised was.seg low) gxid command }
    requires fresh { suspended_of command ≡ suspended_slice command.cid command.level command.snapshot command.slice }
    requires node { node ≡ was.seg.node }
    requires blank { marks.old.items ≡ [] }
    ensures done { IfOk result (λ done. HasDone was.script.tables held.new horizon.new (came marks.new.items done) (starts was.script (raised was.seg low) gxid command)) }
    ensures quiet { IfOk result (λ done. IsQuiet done.fails (starts was.script (raised was.seg low) gxid command)) }
{
    raise(held, horizon, low);
    let done = start(alloc, node, script, held, gxid, command, gate, marks)?;
    Ok(done)
}

// Raises the horizon, where this one is greater. What is below it isn't kept any more.
fn raise(held: &mut Held, horizon: &mut Gxid, low: Gxid)
    requires same { horizon.old ≡ held.old.store.horizon }
    requires dropped { (g : Gxid) → g.0 < horizon.old.0 → get gxid_cmp held.old.entries g ≡ None }
    ensures horizon { horizon.new ≡ greater horizon.old low }
    ensures store { IsRaised held.old.store low held.new.store }
    ensures entries { (g : Gxid) → horizon.new.0 ≤ g.0 → get gxid_cmp held.new.entries g ≡ get gxid_cmp held.old.entries g }
    ensures dropped { (g : Gxid) → g.0 < horizon.new.0 → get gxid_cmp held.new.entries g ≡ None }
    ensures holders { held.new.holders ≡ held.old.holders }
    ensures locks { held.new.locks ≡ held.old.locks }
{
    held.store.raise_horizon(low);
    if *horizon < low {
        *horizon = low;
        drop_below(&mut held.entries, low);
    }
}
