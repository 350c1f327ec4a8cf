// Drives nodes apart, turn by turn.
ghost use Rattle.gx_store.specs.Language.{IsScript};
ghost use Rattle.gx_cells.specs.Done.{AreSameCells};

use crate::seen::Seen;
use crate::trying::{end_first, move_first, resend_first, round, start_first};
use gx_cells::Cells;
use gx_ids::Mem;
use gx_outside::{Gate, Journal};
use gx_script::Script;
use std::alloc::Global;
use std::sync::Wait;

// Drives the cells of a script's nodes until no session is unfinished, so many turns were taken, or no node does anything more.
pub(crate) fn drive<R: Wait, J: Journal, G: Gate>(
    rt: &R,
    alloc: Global,
    script: &Script,
    cells: &mut Cells<J>,
    gate: &G,
    turns: u64,
) -> Mem<()>
    requires { IsScript script.now }
    ensures { AreSameCells cells.old cells.new }
{
    let mut seen = Seen::new(alloc, script)?;
    for _turn in 0..turns {
        if !cells.coord().unfinished() {
            return Ok(());
        }
        seen.look(cells.coord().steps())?;
        if !turn(rt, script, cells, gate, &mut seen)? {
            return Ok(());
        }
    }
    Ok(())
}

// Does the first thing of the schedule that is to be done now, and says whether there was one.
fn turn<R: Wait, J: Journal, G: Gate>(
    rt: &R,
    script: &Script,
    cells: &mut Cells<J>,
    gate: &G,
    seen: &mut Seen,
) -> Mem<bool>
    requires { IsScript script.now }
    ensures { AreSameCells cells.old cells.new }
{
    if move_first(rt, cells, gate, script.segments)?
        || resend_first(rt, cells, gate, seen, script.segments)?
    {
        return Ok(true);
    }
    seen.forget_ended();
    Ok(
        start_first(rt, cells, gate, seen, script)?
            || end_first(rt, cells, gate, script)?
            || round(rt, cells, gate)?,
    )
}
