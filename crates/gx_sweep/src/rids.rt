// The rows under a key.
ghost use Rattle.std.specs.Prelude.{◌≡◌, ◌∷◌, [], IfOk, OnOk, OnErr};
ghost use Rattle.std.specs.BTreeSet.{insert_key, keys};
ghost use Rattle.std.specs.List.Sorted.{IsStrictlySortedBy};
ghost use Rattle.gx_rows.specs.Rids.{rid_cmp};
ghost use Rattle.gx_sweep.specs.Rids.{listed};

use gx_ids::{Mem, Rid};
use std::alloc::Global;
use std::collections::BTreeSet;

/// Rows, each once. Most keys have one.
#[derive(Drop)]
pub(crate) enum Rids {
    One(Rid),
    Many(BTreeSet<Rid>),
}

fn both(alloc: Global, first: Rid, second: Rid) -> Mem<BTreeSet<Rid>>
    ensures { IfOk result (λ rids. keys rids ≡ insert_key rid_cmp (first ∷ []) second) }
{
    let mut rids = BTreeSet::new(alloc);
    rids.insert(first)?;
    rids.insert(second)?;
    Ok(rids)
}

// With a row more, where it isn't there yet.
pub(crate) fn add_rid(alloc: Global, rids: &mut Rids, rid: Rid) -> Mem<()>
    ensures ok { OnOk result (listed rids.new ≡ insert_key rid_cmp (listed rids.old) rid) }
    ensures err { OnErr result (listed rids.new ≡ listed rids.old) }
{
    match rids {
        Rids::One(only) => {
            let only = *only;
            if only != rid {
                *rids = Rids::Many(both(alloc, only, rid)?);
            }
            Ok(())
        }
        Rids::Many(rids) => {
            rids.insert(rid)?;
            Ok(())
        }
    }
}

fn alone(alloc: Global, rid: Rid) -> Mem<Vec<Rid>>
    ensures { IfOk result (λ list. list.items ≡ rid ∷ []) }
{
    let mut list = Vec::with_capacity(alloc, 1)?;
    list.push(rid)?;
    Ok(list)
}

// Them, rising.
pub(crate) fn list(alloc: Global, rids: &Rids) -> Mem<Vec<Rid>>
    ensures whole { IfOk result (λ list. list.items ≡ listed rids.now) }
    ensures rising { IfOk result (λ list. IsStrictlySortedBy rid_cmp list.items) }
{
    match rids {
        Rids::One(rid) => {
            let list = alone(alloc, *rid)?;
            Ok(list)
        }
        Rids::Many(rids) => {
            let list: Vec<Rid> = rids.iter().copied().collect(alloc)?;
            Ok(list)
        }
    }
}
