// The constants of an INSERT that fault.
ghost use Rattle.std.specs.Prelude.{◌≡◌, ◌-◌, IfOk, take};
ghost use Rattle.std.specs.Option.{option_copied};
ghost use Rattle.gx_legal.specs.Faulted.{are_whole as have_values, is_constant_fault as may_be_constant, is_tuple_fault as may_be_tuple, is_whole as has_value};

use crate::command::Command;
use crate::faults::is_row_fault;
use crate::inserts::{is_own, tuple_at};
use crate::orders::is_sent;
use crate::setting::constants;
use gx_ids::{Mem, Rid, Seq};
use gx_meaning::ArithFault;
use gx_store::Mark;
use gx_tree::{Expr, Row};
use std::alloc::Global;

/// Whether the first constant that faults is one of the tuple that the row's identity names, and the command wasn't sent by then.
pub(crate) fn is_constant_fault(
    alloc: Global,
    marks: &[Mark],
    command: Command,
    tuples: &[Seq<Expr>],
    rid: Rid,
    image: &Option<Row>,
    fault: ArithFault,
) -> Mem<bool>
    ensures { IfOk result (λ holds. holds ≡ may_be_constant marks.now command.gxid command.cid tuples.now rid image.now fault) }
{
    if !is_own(command, rid) || image.is_some() || is_sent(marks, command.gxid, command.cid) {
        return Ok(false);
    }
    match is_tuple_fault(alloc, fault, tuple_at(tuples, rid)) {
        Ok(true) => are_whole(alloc, earlier(tuples, rid)),
        other => other,
    }
}

fn is_tuple_fault(alloc: Global, fault: ArithFault, tuple: Option<&Seq<Expr>>) -> Mem<bool>
    ensures { IfOk result (λ holds. holds ≡ may_be_tuple fault (option_copied tuple.entry)) }
{
    match tuple {
        None => Ok(false),
        Some(tuple) => Ok(is_row_fault(constants(alloc, tuple.as_slice())?, fault)),
    }
}

// The tuples before the one that the row's identity names.
fn earlier(tuples: &[Seq<Expr>], rid: Rid) -> &[Seq<Expr>]
    ensures { result.now ≡ take (rid.ordinal - 1) tuples.now }
{
    let place = rid.ordinal.saturating_sub(1) as usize;
    if place < tuples.len() {
        &tuples[..place]
    } else {
        tuples
    }
}

/// Whether no constant of the tuples faults.
pub(crate) fn are_whole(alloc: Global, tuples: &[Seq<Expr>]) -> Mem<bool>
    ensures { IfOk result (λ holds. holds ≡ have_values tuples.now) }
{
    for tuple in tuples {
        if !is_whole(constants(alloc, tuple.as_slice())?) {
            return Ok(false);
        }
    }
    Ok(true)
}

fn is_whole(row: Result<Row, ArithFault>) -> bool
    ensures { result ≡ has_value row }
{
    match row {
        Ok(_row) => true,
        Err(_) => false,
    }
}
