// Whom a recheck has named is cancelled, one behind the other.
ghost use Rattle.std.specs.Prelude.{◌≡◌, ◌+◌, ◌<◌, ◌≤◌, ◌++◌, ◌^◌, [], All, length, true, IfOk, OnOk};
ghost use Rattle.gx_dtx.specs.Table.{find_txn};
ghost use Rattle.gx_rules.specs.AtCoordinator as turns;
ghost use Rattle.gx_rules.specs.Rounds as rounds;
ghost use Rattle.gx_coord.specs.Books.{coord_of};
ghost use Rattle.gx_coord.specs.Sound.{IsSound};
ghost use Rattle.gx_coord.specs.Steps.{HasStayed};
ghost use Rattle.gx_coord.specs.Turns.{IsTurn, is_active as is_active_status, so_far, untold};

use crate::coord::Coord;
use crate::replies::refuse;
use crate::rounds::last_round;
use crate::sending::number;
use gx_dtx::Status;
use gx_entries::find;
use gx_ids::{Gxid, Mem, Seq};
use gx_msg::Out;
use gx_store::{Mark, Refused};
use std::alloc::Global;

fn is_active(status: Option<Status>) -> bool
    ensures { result ≡ is_active_status status }
{
    match status {
        Some(Status::Active) => true,
        _ => false,
    }
}

// Whether the transaction's commands run.
fn is_live(coord: &Coord, gxid: Gxid) -> bool
    ensures { result ≡ rounds.is_live (find_txn coord.now.dtx gxid) }
{
    is_active(coord.dtx.status(gxid))
}

// Whether a statement of it is under way, or waits.
fn is_under_way(coord: &Coord, gxid: Gxid) -> bool
    ensures { result ≡ turns.is_under_way ((coord_of coord.now).works gxid.0) }
{
    match find(coord.works.as_slice(), gxid) {
        None => false,
        Some(work) => work.command.is_some() || work.waiting.is_some(),
    }
}

fn may_cancel(coord: &Coord, gxid: Gxid) -> bool
    ensures { result ≡ turns.may_cancel (coord_of coord.now) gxid }
{
    is_live(coord, gxid) && is_under_way(coord, gxid)
}

// A victim's statement is refused where that may still be; else nothing changes.
fn cancel(alloc: Global, coord: &mut Coord, gxid: Gxid, marks: &mut Vec<Mark>) -> Mem<Seq<Out>>
    requires { IsSound coord.old.script.value (coord_of coord.old) }
    ensures turn { OnOk result (IsTurn coord.old coord.new marks.old.items marks.new.items (turns.cancels (coord_of coord.old) gxid)) }
    ensures outs { IfOk result (λ outs. outs ≡ (turns.cancels (coord_of coord.old) gxid).outs) }
{
    if may_cancel(coord, gxid) {
        let round = last_round(coord);
        refuse(coord, gxid, Refused::Victim(round), marks)
    } else {
        Ok(Seq::new(alloc))
    }
}

// A victim's turn.
fn turn_of_victim(alloc: Global, coord: &mut Coord, gxid: Gxid, marks: &mut Vec<Mark>) -> Mem<()>
    requires sound { IsSound coord.old.script.value (coord_of coord.old) }
    requires some { 1 ≤ coord.old.script.value.segments }
    requires links { length coord.old.sent.items ≡ coord.old.script.value.segments + 1 }
    requires room { All (λ n. n < 2 ^ 62 + length marks.old.items) coord.old.sent.items }
    ensures stayed { OnOk result (HasStayed coord.old coord.new) }
    ensures turn { OnOk result (so_far (coord_of coord.new) marks.new.items [] ≡ untold (turns.and_cancels (so_far (coord_of coord.old) marks.old.items []) gxid)) }
    ensures room { OnOk result (All (λ n. n < 2 ^ 62 + length marks.new.items) coord.new.sent.items) }
{
    let more = cancel(alloc, coord, gxid, marks)?;
    let mut outs = more.into_vec();
    number(&mut coord.sent, &mut outs, marks)?;
    Ok(())
}

// Each victim's turn, wholly before the next.
pub(crate) fn cancel_all(
    alloc: Global,
    coord: &mut Coord,
    victims: &[Gxid],
    marks: &mut Vec<Mark>,
) -> Mem<()>
    requires sound { IsSound coord.old.script.value (coord_of coord.old) }
    requires some { 1 ≤ coord.old.script.value.segments }
    requires links { length coord.old.sent.items ≡ coord.old.script.value.segments + 1 }
    requires room { All (λ n. n < 2 ^ 62 + length marks.old.items) coord.old.sent.items }
    ensures stayed { OnOk result (HasStayed coord.old coord.new) }
    ensures turns { OnOk result (so_far (coord_of coord.new) marks.new.items [] ≡ untold (turns.and_cancels_all victims.now (so_far (coord_of coord.old) marks.old.items []))) }
{
    for victim in victims {
        turn_of_victim(alloc, coord, *victim, marks)?;
    }
    Ok(())
}
