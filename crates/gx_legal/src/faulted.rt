// Whether an evaluation of a command faulted, which is why it is refused.
ghost use Rattle.std.specs.Prelude.{◌≡◌, ◌↔◌, ◌<◌, IfOk, IsTrue, length, slice_get, Some, take};
ghost use Rattle.gx_legal.specs.Causes.{FaultsAt, FaultsBy, HasFaultedBy};
ghost use Rattle.gx_legal.specs.Moments.{point_of};

use crate::command::Command;
use crate::faults::is_fault_of;
use crate::marks::is_aborted;
use crate::moment::Moment;
use crate::noted::{Evaluation, is_heard};
use gx_ids::Mem;
use gx_meaning::ArithFault;
use gx_msg::Cause;
use gx_store::Mark;
use gx_tree::Stmt;
use std::alloc::Global;

// The mark at this place, behind these marks, notes such a fault.
fn is_fault_by(
    alloc: Global,
    moment: &Moment<'_, '_>,
    place: usize,
    stmt: &Stmt,
    command: Command,
    why: (ArithFault, Cause, bool),
    mark: &Mark,
) -> Mem<bool>
    requires { place < length moment.now.before.now }
    ensures { IfOk result (λ is. IsTrue is ↔ FaultsBy why.2 (point_of moment.now) (take place moment.now.before.now) place stmt.now command.level command.gxid command.cid why.0 why.1 mark.now) }
{
    let Mark::Fault {
        gxid,
        cid,
        rid,
        image,
    } = mark
    else {
        return Ok(false);
    };
    let evaluation = Evaluation {
        gxid: command.gxid,
        cid: command.cid,
        rid: *rid,
        image,
    };
    let marks = &moment.before[..place];
    if *gxid != command.gxid || *cid != command.cid || is_aborted(marks, command.gxid) {
        return Ok(false);
    }
    if !is_heard(moment, place, stmt, evaluation, why.1, why.2) {
        return Ok(false);
    }
    is_fault_of(alloc, marks, command, stmt, *rid, image, why.0)
}

fn is_fault_at(
    alloc: Global,
    moment: &Moment<'_, '_>,
    place: usize,
    stmt: &Stmt,
    command: Command,
    why: (ArithFault, Cause, bool),
) -> Mem<bool>
    requires { place < length moment.now.before.now }
    ensures { IfOk result (λ is. IsTrue is ↔ FaultsAt why.2 (point_of moment.now) stmt.now command.level command.gxid command.cid why.0 why.1 place) }
{
    is_fault_by(
        alloc,
        moment,
        place,
        stmt,
        command,
        why,
        &moment.before[place],
    )
}

/// Whether an evaluation of the command gave this fault before its transaction aborted, and is why it is refused; by FAILED of a segment
/// that had noted it, where that is asked for.
pub fn has_faulted(
    alloc: Global,
    moment: &Moment<'_, '_>,
    stmt: &Stmt,
    command: Command,
    why: (ArithFault, Cause, bool),
) -> Mem<bool>
    ensures { IfOk result (λ is. IsTrue is ↔ HasFaultedBy why.2 (point_of moment.now) stmt.now command.level command.gxid command.cid why.0 why.1) }
{
    for place in 0..moment.before.len() {
        if is_fault_at(alloc, moment, place, stmt, command, why)? {
            return Ok(true);
        }
    }
    Ok(false)
}
