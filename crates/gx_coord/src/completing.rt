// A command that every segment has done.
ghost use Rattle.std.specs.Prelude.{◌≡◌, IfOk, OnOk, [], None};
ghost use Rattle.gx_dtx.specs.Rules.{AreWriters};
ghost use Rattle.gx_dtx.specs.Table.{IsActive};
ghost use Rattle.gx_rules.specs.AtCoordinator as turns;
ghost use Rattle.gx_rules.specs.Coordinators.{with_work};
ghost use Rattle.gx_coord.specs.Books.{IsFramed, coord_of};
ghost use Rattle.gx_coord.specs.Turns.{IsFit, IsBusy, IsTurn};

use crate::answers::{push_answer, told_for};
use crate::books::{find_session, set_state};
use crate::coord::Coord;
use crate::ends::{after_done, commit, owner};
use gx_entries::{find, place_of};
use gx_ids::{Gxid, Mem, Seq};
use gx_msg::Out;
use gx_script::Script;
use gx_script::state::Block;
use gx_store::Mark;
use gx_tree::Level;
use std::alloc::Global;

// The level of a transaction.
pub(crate) fn level_of(coord: &Coord, gxid: Gxid) -> Level
    ensures { result ≡ ((coord_of coord.now).works gxid.0).level }
{
    match find(coord.works.as_slice(), gxid) {
        Some(work) => work.level,
        None => Level::ReadCommitted,
    }
}

// At read committed a command's snapshot lives no longer than the command.
fn drop_unless_kept(coord: &mut Coord, gxid: Gxid)
    ensures framed { IsFramed coord.old coord.new }
    ensures coord { coord_of coord.new ≡ record (coord_of coord.old) { table = turns.unless_kept ((coord_of coord.old).works gxid.0).level coord.old.dtx gxid } }
{
    match level_of(coord, gxid) {
        Level::ReadCommitted => coord.dtx.drop_snapshot(gxid),
        Level::RepeatableRead => {}
    }
}

// The command is no longer under way.
fn end_command(coord: &mut Coord, gxid: Gxid)
    ensures framed { IsFramed coord.old coord.new }
    ensures coord { coord_of coord.new ≡ with_work (coord_of coord.old) gxid (record ((coord_of coord.old).works gxid.0) { command = None }) }
{
    if let Some(place) = place_of(coord.works.as_slice(), gxid) {
        let work = &mut coord.works[place].1;
        work.command = None;
    }
}

// The line of a block's command is answered.
fn answer_in_block(
    alloc: Global,
    script: &Script,
    coord: &mut Coord,
    gxid: Gxid,
    marks: &mut Vec<Mark>,
) -> Mem<()>
    requires same { coord.old.script.value ≡ script.now }
    requires busy { IsBusy (coord_of coord.old) gxid.0 }
    requires fits { IsFit ((coord_of coord.old).works gxid.0).command }
    ensures { OnOk result (IsTurn coord.old coord.new marks.old.items marks.new.items (turns.answers (coord_of coord.old) gxid ((coord_of coord.old).works gxid.0))) }
{
    let id = owner(coord, gxid);
    let session = find_session(coord, id);
    let answer = told_for(alloc, script, coord, gxid)?;
    push_answer(marks, id, session.lines, answer)?;
    drop_unless_kept(coord, gxid);
    end_command(coord, gxid);
    set_state(coord, id, after_done(session.state));
    Ok(())
}

// A command of its own transaction commits; in a block its line is answered.
pub(crate) fn complete(
    alloc: Global,
    script: &Script,
    coord: &mut Coord,
    gxid: Gxid,
    marks: &mut Vec<Mark>,
) -> Mem<Seq<Out>>
    requires same { coord.old.script.value ≡ script.now }
    requires active { IsActive coord.old.dtx gxid }
    requires writers { AreWriters coord.old.dtx gxid ((coord_of coord.old).works gxid.0).writers }
    requires busy { IsBusy (coord_of coord.old) gxid.0 }
    requires fits { IsFit ((coord_of coord.old).works gxid.0).command }
    ensures turn { OnOk result (IsTurn coord.old coord.new marks.old.items marks.new.items (turns.completes (coord_of coord.old) gxid
        ((coord_of coord.old).sessions ((coord_of coord.old).works gxid.0).session.0).state.block)) }
    ensures outs { IfOk result (λ outs. outs ≡ (turns.completes (coord_of coord.old) gxid ((coord_of coord.old).sessions ((coord_of coord.old).works gxid.0).session.0).state.block).outs) }
{
    let session = find_session(coord, owner(coord, gxid));
    match session.state.block {
        Block::Outside => commit(alloc, script, coord, gxid, marks),
        _ => {
            answer_in_block(alloc, script, coord, gxid, marks)?;
            Ok(Seq::new(alloc))
        },
    }
}
