// Answers of segments to commands.
ghost use Rattle.std.specs.Prelude.{◌≡◌, ◌≤◌, ◌==◌, ◌&&◌, ◌*◌, [], ◌^◌, true, length, IfOk, IfSome, OnOk, is_some, option_map};
ghost use Rattle.gx_dtx.specs.Nodes.{has as is_one_of};
ghost use Rattle.gx_dtx.specs.Rules.{on_abort};
ghost use Rattle.gx_dtx.specs.Table.{IsActive};
ghost use Rattle.gx_rules.specs.AtCoordinator as turns;
ghost use Rattle.gx_rules.specs.Coordinators.{with_work};
ghost use Rattle.gx_rules.specs.Fits as fits;
ghost use Rattle.gx_coord.specs.Books.{IsFramed, add_to, coord_of, stmt_at};
ghost use Rattle.gx_coord.specs.Turns.{AreCounted, IsBusy, IsTurn, asks, done_work, is_over, takes};

use crate::books::find_command;
use crate::coord::Coord;
use crate::ends::refuse_line;
use crate::work::{Command, Work};
use gx_dtx::DtxOut;
use gx_dtx::nodes::{has, put_in, take_out};
use gx_entries::place_of;
use gx_ids::{Cid, Duplicate, Gxid, Mem, Node, Seq};
use gx_msg::Out;
use gx_node::fits_part;
use gx_script::Script;
use gx_store::{Mark, Refused};
use gx_tree::{Part, Stmt};
use std::alloc::Global;

// What a segment says of a command that is done there, besides its part.
#[derive(Clone, Copy)]
pub(crate) struct Done {
    pub cid: Cid,
    pub wrote: bool,
    pub count: u64,
}

// Whether the node's answer to the command is awaited.
fn is_awaited(command: &Command, node: Node, cid: Cid) -> bool
    ensures { result ≡ ((command.now.cid.0 == cid.0) && is_one_of node command.now.awaited) }
{
    command.cid == cid && has(node, command.awaited.as_slice())
}

fn fits_line(script: &Script, command: &Command, part: &Part) -> bool
    ensures { result ≡ fits.fits_part (stmt_at script.now.lines command.now.line) part.now }
{
    match script.lines.as_slice().get(command.line) {
        Some(line) => fits_part(&line.stmt, part),
        None => fits_part(&Stmt::Commit, part),
    }
}

// Whether a transaction's command awaits the node's answer.
pub(crate) fn is_asked(coord: &Coord, gxid: Gxid, node: Node, cid: Cid) -> bool
    ensures { result ≡ asks ((coord_of coord.now).works gxid.0).command node cid }
{
    match find_command(coord, gxid) {
        Some(command) => is_awaited(command, node, cid),
        None => false,
    }
}

// Whether it awaits it, and the part fits.
pub(crate) fn is_taken(
    script: &Script,
    coord: &Coord,
    gxid: Gxid,
    node: Node,
    cid: Cid,
    part: &Part,
) -> bool
    requires { coord.now.script.value ≡ script.now }
    ensures { result ≡ takes ((coord_of coord.now).works gxid.0).command node cid part.now }
{
    match find_command(coord, gxid) {
        Some(command) => is_awaited(command, node, cid) && fits_line(script, command, part),
        None => false,
    }
}

fn add_part(alloc: Global, command: &mut Command, node: Node, count: u64, part: &Part) -> Mem<()>
    requires { command.old.count ≤ 2 ^ 64 * length command.old.parts }
    ensures { OnOk result (command.new ≡ add_to node count part.now command.old) }
{
    let _parts = command.parts.len();
    command.count += u128::from(count);
    command.parts.push(part.copy(alloc)?)?;
    take_out(alloc, node, &mut command.awaited);
    Ok(())
}

fn add_writer(alloc: Global, work: &mut Work, wrote: bool, node: Node) -> Mem<()>
    ensures { OnOk result (work.new ≡ record work.old { writers = turns.writers_with wrote node work.old.writers }) }
{
    if wrote {
        put_in(alloc, node, &mut work.writers)?;
    }
    Ok(())
}

fn add_done(alloc: Global, work: &mut Work, node: Node, done: Done, part: &Part) -> Mem<()>
    requires { IfSome work.old.command (λ k. k.count ≤ 2 ^ 64 * length k.parts) }
    ensures { OnOk result (work.new ≡ record work.old { writers = turns.writers_with done.wrote node work.old.writers; command = option_map (add_to node done.count part.now) work.old.command }) }
{
    add_writer(alloc, work, done.wrote, node)?;
    if let Some(command) = &mut work.command {
        add_part(alloc, command, node, done.count, part)?;
    }
    Ok(())
}

// The answer is noted.
pub(crate) fn note_done(
    alloc: Global,
    coord: &mut Coord,
    gxid: Gxid,
    node: Node,
    done: Done,
    part: &Part,
) -> Mem<()>
    requires there { is_some ((coord_of coord.old).works gxid.0).command ≡ true }
    requires counted { AreCounted ((coord_of coord.old).works gxid.0).command }
    ensures framed { OnOk result (IsFramed coord.old coord.new) }
    ensures coord { OnOk result (coord_of coord.new ≡ with_work (coord_of coord.old) gxid (done_work ((coord_of coord.old).works gxid.0) node done.wrote done.count part.now)) }
{
    if let Some(place) = place_of(coord.works.as_slice(), gxid) {
        let work = &mut coord.works[place].1;
        add_done(alloc, work, node, done, part)?;
    }
    Ok(())
}

// Whether no answer to the command is awaited any more.
pub(crate) fn is_done(coord: &Coord, gxid: Gxid) -> bool
    ensures { result ≡ is_over ((coord_of coord.now).works gxid.0).command }
{
    match find_command(coord, gxid) {
        Some(command) => command.awaited.is_empty(),
        None => true,
    }
}

// A transaction aborts, and its line is refused.
pub(crate) fn refuse(
    coord: &mut Coord,
    gxid: Gxid,
    reason: Refused,
    marks: &mut Vec<Mark>,
) -> Mem<Seq<Out>>
    requires active { IsActive coord.old.dtx gxid }
    requires busy { IsBusy (coord_of coord.old) gxid.0 }
    ensures turn { OnOk result (IsTurn coord.old coord.new marks.old.items marks.new.items (turns.is_refused (coord_of coord.old) gxid (on_abort coord.old.dtx gxid) [] reason)) }
    ensures outs { IfOk result (λ outs. outs ≡ (on_abort coord.old.dtx gxid).out.outs) }
{
    let out = coord.dtx.abort(&mut coord.spare.outs, gxid)?;
    match refuse_line(coord, gxid, reason, marks) {
        Ok(()) => Ok(out.outs),
        Err(fault) => {
            drop(out);
            Err(fault)
        }
    }
}
