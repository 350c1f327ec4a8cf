ghost use Rattle.std.specs.Prelude.{◌≡◌, [], IfOk};
ghost use Rattle.gx_legal.specs.Gathered.{committed_from};

use gx_ids::{Gxid, Mem};
use gx_store::Mark;
use std::alloc::Global;
use std::collections::BTreeSet;

/// The transactions that have committed.
pub(crate) fn committed(alloc: Global, marks: &[Mark]) -> Mem<BTreeSet<Gxid>>
    ensures { IfOk result (λ gxids. gxids.keys ≡ committed_from [] marks.now) }
{
    let mut gxids = BTreeSet::new(alloc);
    for mark in marks {
        if let Mark::Commit { gxid } = mark {
            gxids.insert(*gxid)?;
        }
    }
    Ok(gxids)
}
