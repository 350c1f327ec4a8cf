// Whether an INSERT has written its rows.
ghost use Rattle.std.specs.Prelude.{◌≡◌, IfOk};
ghost use Rattle.gx_legal.specs.Own.{IsOwn};
ghost use Rattle.gx_legal.specs.Told.{are_ordinals_in as are_all_in, are_own_done as were_own_done, has_inserted as did_insert};

use crate::command::Command;
use crate::constants::are_whole;
use crate::marks::has_own_snapshot;
use crate::processed::processed_ordinals;
use gx_ids::{Mem, Seq};
use gx_store::Mark;
use gx_tree::Expr;
use std::alloc::Global;
use std::collections::BTreeSet;

/// Whether the command has its snapshot and has written the row of each tuple, which are so many.
pub(crate) fn has_inserted(
    alloc: Global,
    marks: &[Mark],
    own: &[Mark],
    command: Command,
    tuples: &[Seq<Expr>],
    count: u128,
) -> Mem<bool>
    requires { IsOwn command.gxid marks.now own.now }
    ensures { IfOk result (λ holds. holds ≡ did_insert marks.now command.level command.gxid command.cid tuples.now count) }
{
    if count != tuples.len() as u128 || !has_own_snapshot(marks, command) {
        return Ok(false);
    }
    match are_whole(alloc, tuples) {
        Ok(true) => are_own_done(alloc, marks, own, command, tuples),
        other => other,
    }
}

fn are_own_done(
    alloc: Global,
    _marks: &[Mark],
    own: &[Mark],
    command: Command,
    tuples: &[Seq<Expr>],
) -> Mem<bool>
    requires { IsOwn command.gxid _marks.now own.now }
    ensures { IfOk result (λ holds. holds ≡ were_own_done _marks.now command.gxid command.cid 0 tuples.now) }
{
    let ordinals = processed_ordinals(alloc, own, command)?;
    Ok(are_ordinals_in(&ordinals, tuples))
}

// Whether the ordinal of each tuple is in the set.
fn are_ordinals_in(ordinals: &BTreeSet<u64>, tuples: &[Seq<Expr>]) -> bool
    ensures { result ≡ are_all_in ordinals.now 0 tuples.now }
{
    for (place, _tuple) in tuples.iter().enumerate() {
        if !ordinals.contains(&(place as u64 + 1)) {
            return false;
        }
    }
    true
}
