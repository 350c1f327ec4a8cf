// An INSERT at a segment.
ghost use Rattle.std.specs.Prelude.{◌≡◌, ◌≤◌, true, false, length, nat_lt, IfOk, OnOk};
ghost use Rattle.std.specs.List.{list_any};
ghost use Rattle.gx_waits.specs.Claims.{is_of};
ghost use Rattle.gx_node.specs.Right.{IsRightFor};
ghost use Rattle.gx_rules.specs.Fits.{is_waiting};
ghost use Rattle.gx_rules.specs.Segments.{Seg, after_marks, local_of};
ghost use Rattle.gx_rules.specs.Slices.{inserted, inserts};
ghost use Rattle.gx_tree.specs.declared.slice.Slice.TheVariants as slice;
ghost use Rattle.gx_slices.specs.Agrees.{IsHeld};
ghost use Rattle.gx_slices.specs.Apart.{IsApart};
ghost use Rattle.gx_slices.specs.Inserts.{IsInserted};
ghost use Rattle.gx_slices.specs.Ran.{HasRun};
ghost use Rattle.gx_slices.specs.Waiting.{is_open};

use crate::answering::{has_written, keep_answer};
use crate::changing::{Writer, write_row};
use crate::entries::take_entry;
use crate::held::{Entry, Held};
use crate::running::Ran;
use gx_ids::{Duplicate, Mem, Seq};
use gx_msg::Reply;
use gx_store::Mark;
use gx_tree::{KeyedRow, Schema};
use std::alloc::Global;

pub(crate) fn insert(
    alloc: Global,
    tables: &[Schema],
    held: &mut Held,
    writer: Writer,
    rows: &[KeyedRow],
    mut marks: Vec<Mark>,
) -> Mem<Ran>
    ghost s: { Seg }
    requires held { IsHeld tables.now held.old s }
    requires alive { s.horizon.0 ≤ writer.gxid.0 }
    requires open_here { is_open (local_of s writer.gxid).phase ≡ true }
    requires free { is_waiting (local_of s writer.gxid) ≡ false }
    requires right { IsRightFor tables.now writer.gxid writer.cid (slice.Insert writer.table rows.now) true }
    requires node { writer.node ≡ s.node }
    requires new { nat_lt 0 writer.cid.0 ≡ true }
    ensures { IfOk result (λ ran. HasRun tables.now held.new writer.gxid ran
        (after_marks marks.items (inserts writer.gxid writer.cid (length rows.now) (inserted s writer.gxid writer.cid writer.table rows.now)))) }
{
    let Writer { gxid, cid, .. } = writer;
    let part = held.store.no_rows()?;
    let count = rows.len() as u64;
    let mut entry = take_entry(alloc, &mut held.entries, gxid);
    match insert_rows(alloc, writer, held, &mut entry, rows, &mut marks) {
        Ok(()) => {
            let reply = Reply::Done {
                cid,
                wrote: has_written(entry.local.phase),
                count,
                part,
            };
            keep_answer(alloc, held, gxid, cid, entry, &reply)?;
            Ok(Ran {
                marks: Seq::from_vec(marks),
                reply,
            })
        }
        Err(error) => {
            drop(part);
            drop(entry);
            Err(error)
        }
    }
}

// Adds the rows, in order, with their marks behind those so far.
fn insert_rows(
    alloc: Global,
    writer: Writer,
    held: &mut Held,
    entry: &mut Entry,
    rows: &[KeyedRow],
    marks: &mut Vec<Mark>,
) -> Mem<()>
    ghost s: { Seg }
    requires node { writer.node ≡ s.node }
    requires alive { s.horizon.0 ≤ writer.gxid.0 }
    requires apart { IsApart s held.old held.old entry.old writer.gxid s }
    requires free { list_any (is_of writer.gxid) s.locks.waits ≡ false }
    ensures { OnOk result (IsInserted s writer.gxid writer.cid writer.table rows.now held.old held.new entry.new marks.old.items marks.new.items) }
{
    for row in rows {
        let image = row.row.copy(alloc)?;
        write_row(alloc, writer, held, entry, row.rid, Some(image), marks)?;
    }
    Ok(())
}
