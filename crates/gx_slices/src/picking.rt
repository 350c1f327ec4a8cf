// The rows on which a condition is true.
ghost use Rattle.std.specs.Prelude.{◌≡◌, Some, IfOk, OnOk};
ghost use Rattle.std.specs.List.{AllByRecursion};
ghost use Rattle.gx_meaning.specs.Expressions.{truth_of};
ghost use Rattle.gx_slices.specs.Picked.{AreTypedOn, IsPicked, IsTypedOn, kept_if};

use crate::shown_row::{ShownRow, to_all_keyed};
use gx_eval::decide;
use gx_ids::Mem;
use gx_meaning::ArithFault;
use gx_tree::{Cond, KeyedRow};
use std::alloc::Global;

/// What a condition makes of rows.
#[derive(Drop)]
pub enum Picked {
    /// The rows on which the condition is true.
    Rows(Vec<KeyedRow>),
    /// The first row on which it faults.
    Fault(KeyedRow, ArithFault),
}

pub(crate) fn pick(alloc: Global, cond: &Option<Cond>, rows: Vec<ShownRow<'_>>) -> Mem<Picked>
    requires { AreTypedOn cond.now rows.items }
    ensures { IfOk result (IsPicked cond.now rows.entry.items) }
{
    match cond {
        Some(cond) => pick_by(alloc, cond, rows),
        None => {
            let kept = to_all_keyed(alloc, rows.as_slice())?;
            Ok(Picked::Rows(kept))
        }
    }
}

#[tactic(auto, using(crate::proofs::Told::first_faults))]
fn pick_by(alloc: Global, cond: &Cond, rows: Vec<ShownRow<'_>>) -> Mem<Picked>
    requires { AllByRecursion (IsTypedOn cond.now) rows.items }
    ensures { IfOk result (IsPicked (Some cond.now) rows.entry.items) }
{
    let mut kept = Vec::new(alloc);
    for row in rows {
        match decide_on(cond, &row) {
            Ok(truth) => keep_if(alloc, truth, &row, &mut kept)?,
            Err(fault) => {
                let at = row.to_keyed(alloc)?;
                return Ok(Picked::Fault(at, fault));
            }
        }
    }
    Ok(Picked::Rows(kept))
}

// What the condition says of a row.
fn decide_on(cond: &Cond, shown: &ShownRow<'_>) -> Result<bool, ArithFault>
    requires { IsTypedOn cond.now shown.now }
    ensures { result ≡ truth_of shown.now.row cond.now }
{
    decide(cond, shown.row())
}

fn keep_if(alloc: Global, truth: bool, row: &ShownRow<'_>, kept: &mut Vec<KeyedRow>) -> Mem<()>
    ensures { OnOk result (kept.new.items ≡ kept_if truth kept.old.items row.now) }
{
    if truth {
        kept.push(row.to_keyed(alloc)?)?;
    }
    Ok(())
}
