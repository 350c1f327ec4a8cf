// A LOCK TABLE at a segment, which has its lock.
ghost use Rattle.std.specs.Prelude.{◌≡◌, ◌≤◌, true, false, nat_lt, IfOk};
ghost use Rattle.gx_rules.specs.Fits.{is_waiting};
ghost use Rattle.gx_rules.specs.Segments.{Seg, local_of};
ghost use Rattle.gx_rules.specs.Slices.{locks};
ghost use Rattle.gx_slices.specs.Agrees.{IsHeld};
ghost use Rattle.gx_slices.specs.Ran.{HasRun};
ghost use Rattle.gx_slices.specs.Waiting.{is_open};

use crate::answering::{has_written, keep_answer};
use crate::entries::take_entry;
use crate::held::Held;
use crate::running::Ran;
use gx_ids::{Cid, Gxid, Mem, Seq};
use gx_msg::Reply;
use gx_tree::Schema;
use std::alloc::Global;

// It answers that it is done.
pub(crate) fn lock(
    alloc: Global,
    tables: &[Schema],
    held: &mut Held,
    gxid: Gxid,
    cid: Cid,
) -> Mem<Ran>
    ghost s: { Seg }
    requires held { IsHeld tables.now held.old s }
    requires alive { s.horizon.0 ≤ gxid.0 }
    requires open_here { is_open (local_of s gxid).phase ≡ true }
    requires free { is_waiting (local_of s gxid) ≡ false }
    requires new { nat_lt 0 cid.0 ≡ true }
    ensures { IfOk result (λ ran. HasRun tables.now held.new gxid ran (locks s gxid cid)) }
{
    let part = held.store.no_rows()?;
    let entry = take_entry(alloc, &mut held.entries, gxid);
    let reply = Reply::Done {
        cid,
        wrote: has_written(entry.local.phase),
        count: 0,
        part,
    };
    keep_answer(alloc, held, gxid, cid, entry, &reply)?;
    let marks = Seq::new(alloc);
    Ok(Ran { marks, reply })
}
