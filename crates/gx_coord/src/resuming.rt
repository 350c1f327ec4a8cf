// A statement that has waited for its table's lock goes out.
ghost use Rattle.std.specs.Prelude.{◌≡◌, ◌<◌, ◌^◌, option_map, IfOk, OnOk, true};
ghost use Rattle.gx_locks.specs.Locks.{wait_of};
ghost use Rattle.gx_store.specs.Language.{IsScript};
ghost use Rattle.gx_rules.specs.AtCoordinator as turns;
ghost use Rattle.gx_coord.specs.Books.{coord_of, stmt_at};
ghost use Rattle.gx_coord.specs.Sound.{IsSound};
ghost use Rattle.gx_coord.specs.Turns.{IsTurn};

use crate::books::find_session;
use crate::coord::Coord;
use crate::dispatch::{go_locked, set_waiting};
use crate::ends::owner;
use crate::locking::take_ready;
use crate::starting::small;
use gx_entries::find;
use gx_ids::{Gxid, Mem, Seq};
use gx_msg::Out;
use gx_script::Script;
use gx_store::{Mark, NodeEvent};
use std::alloc::Global;

// How many lines the session of a transaction has started.
fn lines_of(coord: &Coord, gxid: Gxid) -> u32
    ensures same { result ≡ ((coord_of coord.now).sessions ((coord_of coord.now).works gxid.0).session.0).lines }
    ensures small { result < 2 ^ 32 }
{
    let session = find_session(coord, owner(coord, gxid));
    small(session.lines)
}

// The place of the line whose statement waits.
fn waiting_of(coord: &Coord, gxid: Gxid) -> Option<usize>
    ensures { option_map (stmt_at coord.now.script.value.lines) result ≡ ((coord_of coord.now).works gxid.0).waiting }
{
    match find(coord.works.as_slice(), gxid) {
        Some(work) => work.waiting,
        None => None,
    }
}

// A statement that waits takes its lock and goes out, where nothing is in its way any more.
pub(crate) fn resume(
    alloc: Global,
    script: &Script,
    coord: &mut Coord,
    gxid: Gxid,
    marks: &mut Vec<Mark>,
) -> Mem<Seq<Out>>
    requires same { coord.old.script.value ≡ script.now }
    requires language { IsScript script.now }
    requires sound { IsSound script.now (coord_of coord.old) }
    requires admitted { turns.coord_can script.now (coord_of coord.old) (NodeEvent.Resume gxid) ≡ true }
    ensures turn { OnOk result (IsTurn coord.old coord.new marks.old.items marks.new.items (turns.resumes script.now (coord_of coord.old) gxid
        (wait_of coord.old.locks gxid) ((coord_of coord.old).works gxid.0).waiting)) }
    ensures outs { IfOk result (λ outs. outs ≡ (turns.resumes script.now (coord_of coord.old) gxid (wait_of coord.old.locks gxid) ((coord_of coord.old).works gxid.0).waiting).outs) }
{
    // Read for its range: its session has started as many lines, so its next command has a number.
    let _lines = lines_of(coord, gxid);
    take_ready(coord, gxid, marks)?;
    match waiting_of(coord, gxid) {
        Some(place) => {
            set_waiting(alloc, coord, gxid, None)?;
            go_locked(alloc, coord, gxid, place, marks)
        }
        None => unreachable!(),
    }
}
