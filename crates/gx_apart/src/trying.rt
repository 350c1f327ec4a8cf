// What nodes are asked for, kind by kind, in the order of the schedule: each does the first thing that is to be done now, and says
// whether it was done.
ghost use Rattle.gx_store.specs.Language.{IsScript};
ghost use Rattle.gx_cells.specs.Done.{AreSameCells};

use crate::seen::Seen;
use gx_cells::{Action, Cells, Looked};
use gx_ids::{Gxid, Mem, Node, SessionId};
use gx_outside::{Gate, Journal};
use gx_script::Script;
use std::sync::Wait;

// Whether a node has done something. An envelope that is lost is something too: the next of its link may come then.
fn does<R: Wait, J: Journal, G: Gate>(
    rt: &R,
    cells: &mut Cells<J>,
    gate: &G,
    node: Node,
    action: Action,
) -> Mem<bool>
    ensures { AreSameCells cells.old cells.new }
{
    match cells.act(rt, node, action, gate)? {
        Looked::Stepped | Looked::Lost => Ok(true),
        _ => Ok(false),
    }
}

// The coordinator receives, or a segment goes on or receives, or at last somebody goes on at the coordinator.
pub(crate) fn move_first<R: Wait, J: Journal, G: Gate>(
    rt: &R,
    cells: &mut Cells<J>,
    gate: &G,
    segments: u8,
) -> Mem<bool>
    ensures { AreSameCells cells.old cells.new }
{
    Ok(
        hear_first(rt, cells, gate, segments)?
            || work_first(rt, cells, gate, segments)?
            || does(rt, cells, gate, Node(0), Action::Resume)?,
    )
}

fn hear_first<R: Wait, J: Journal, G: Gate>(
    rt: &R,
    cells: &mut Cells<J>,
    gate: &G,
    segments: u8,
) -> Mem<bool>
    ensures { AreSameCells cells.old cells.new }
{
    for before in 0..segments {
        let from = Node(before + 1);
        if does(rt, cells, gate, Node(0), Action::Receive(from))? {
            return Ok(true);
        }
    }
    Ok(false)
}

fn work_first<R: Wait, J: Journal, G: Gate>(
    rt: &R,
    cells: &mut Cells<J>,
    gate: &G,
    segments: u8,
) -> Mem<bool>
    ensures { AreSameCells cells.old cells.new }
{
    for before in 0..segments {
        let node = Node(before + 1);
        if does(rt, cells, gate, node, Action::Resume)?
            || does(rt, cells, gate, node, Action::Receive(Node(0)))?
        {
            return Ok(true);
        }
    }
    Ok(false)
}

// What a segment hasn't answered is sent again: of a transaction, and of the detector's round at last.
pub(crate) fn resend_first<R: Wait, J: Journal, G: Gate>(
    rt: &R,
    cells: &mut Cells<J>,
    gate: &G,
    seen: &Seen,
    segments: u8,
) -> Mem<bool>
    ensures { AreSameCells cells.old cells.new }
{
    for before in 0..segments {
        let segment = Node(before + 1);
        if resend_to(rt, cells, gate, seen, segment)?
            || does(rt, cells, gate, Node(0), Action::Resend(segment, None))?
        {
            return Ok(true);
        }
    }
    Ok(false)
}

fn resend_to<R: Wait, J: Journal, G: Gate>(
    rt: &R,
    cells: &mut Cells<J>,
    gate: &G,
    seen: &Seen,
    segment: Node,
) -> Mem<bool>
    ensures { AreSameCells cells.old cells.new }
{
    for place in 0..seen.open_count() {
        if let Some(gxid) = seen.open_at(place)
            && !waits_for_exec(cells, segment, gxid)
            && does(
                rt,
                cells,
                gate,
                Node(0),
                Action::Resend(segment, Some(gxid)),
            )?
        {
            return Ok(true);
        }
    }
    Ok(false)
}

// Whether what the segment hasn't answered is an EXEC of which a slice waits there.
fn waits_for_exec<J: Journal>(cells: &Cells<J>, segment: Node, gxid: Gxid) -> bool {
    match cells
        .segments()
        .get(usize::from(segment.0).saturating_sub(1))
    {
        Some(cell) => cells.coord().awaits_exec(segment, gxid) && cell.waits(gxid),
        None => false,
    }
}

// The first line of the file starts that is its session's next.
pub(crate) fn start_first<R: Wait, J: Journal, G: Gate>(
    rt: &R,
    cells: &mut Cells<J>,
    gate: &G,
    seen: &mut Seen,
    script: &Script,
) -> Mem<bool>
    ensures { AreSameCells cells.old cells.new }
{
    let lines = script.lines.as_slice();
    for place in seen.front(lines)..lines.len() {
        let line = &lines[place];
        if seen.is_next(line) && does(rt, cells, gate, Node(0), Action::Start(line.session))? {
            seen.start(line.session);
            return Ok(true);
        }
    }
    Ok(false)
}

// The first session ends that has no line left and an open block.
pub(crate) fn end_first<R: Wait, J: Journal, G: Gate>(
    rt: &R,
    cells: &mut Cells<J>,
    gate: &G,
    script: &Script,
) -> Mem<bool>
    requires { IsScript script.now }
    ensures { AreSameCells cells.old cells.new }
{
    for place in 0..script.sessions.len() {
        let session = SessionId(place as u8);
        if does(rt, cells, gate, Node(0), Action::End(session))? {
            return Ok(true);
        }
    }
    Ok(false)
}

// A round of the detector begins.
pub(crate) fn round<R: Wait, J: Journal, G: Gate>(
    rt: &R,
    cells: &mut Cells<J>,
    gate: &G,
) -> Mem<bool>
    ensures { AreSameCells cells.old cells.new }
{
    does(rt, cells, gate, Node(0), Action::Round)
}
