// A SELECT at a segment.
ghost use Rattle.std.specs.Prelude.{◌≡◌, Some, IfOk};
ghost use Rattle.gx_rules.specs.Segments.{Seg};
ghost use Rattle.gx_rules.specs.Slices.{cause_of, reads};
ghost use Rattle.gx_tree.specs.declared.slice.Slice.TheVariants as slice;
ghost use Rattle.gx_slices.specs.Agrees.{IsHeld};
ghost use Rattle.gx_slices.specs.Apart.{IsBack, answered};
ghost use Rattle.gx_slices.specs.Picked.{IsFaulted, IsToldOf};
ghost use Rattle.gx_slices.specs.Ran.{HasRun, MayRun};

use crate::answering::{has_written, keep_answer};
use crate::entries::take_entry;
use crate::held::{Entry, Held};
use crate::picking::{Picked, pick};
use crate::running::Ran;
use gx_dsnap::Snapshot;
use gx_gather::partial;
use gx_ids::{Cid, Gxid, Mem, Seq, Shared};
use gx_meaning::ArithFault;
use gx_msg::{Cause, Reply};
use gx_store::Mark;
use gx_tree::{KeyedRow, Query, Schema};
use std::alloc::Global;

pub(crate) fn select(
    alloc: Global,
    tables: &[Schema],
    held: &mut Held,
    gxid: Gxid,
    cid: Cid,
    snapshot: &Option<Snapshot>,
    query: Shared<Query>,
) -> Mem<Ran>
    ghost s: { Seg }
    requires held { IsHeld tables.now held.old s }
    requires may { MayRun tables.now s gxid cid snapshot.now (slice.Select query) }
    ensures { IfOk result (λ ran. HasRun tables.now held.new gxid ran (reads s gxid cid query snapshot.now)) }
{
    let ran = match snapshot {
        Some(snapshot) => select_by(alloc, tables, held, gxid, cid, snapshot, query.get()),
        None => unreachable!(),
    };
    drop(query);
    ran
}

// The same by its snapshot.
fn select_by(
    alloc: Global,
    tables: &[Schema],
    held: &mut Held,
    gxid: Gxid,
    cid: Cid,
    snapshot: &Snapshot,
    query: &Query,
) -> Mem<Ran>
    ghost s: { Seg }
    requires held { IsHeld tables.now held.old s }
    requires may { MayRun tables.now s gxid cid (Some snapshot.now) (slice.Select query.now) }
    ensures { IfOk result (λ ran. HasRun tables.now held.new gxid ran (reads s gxid cid query.now (Some snapshot.now))) }
{
    let rows = held
        .store
        .shown_rows_for(query.table, &query.cond, snapshot, Some(gxid), cid)?;
    let picked = pick(alloc, &query.cond, rows)?;
    let entry = take_entry(alloc, &mut held.entries, gxid);
    let wrote = has_written(entry.local.phase);
    match selection(alloc, gxid, cid, wrote, query, picked) {
        Ok(ran) => keep_ran(alloc, held, gxid, cid, entry, ran),
        Err(error) => {
            drop(entry);
            Err(error)
        }
    }
}

// Puts back the entry with the answer, and hands on what has run.
fn keep_ran(
    alloc: Global,
    held: &mut Held,
    gxid: Gxid,
    cid: Cid,
    entry: Entry,
    ran: Ran,
) -> Mem<Ran>
    ensures { IfOk result (λ kept. (kept ≡ ran) × IsBack held.old held.new gxid cid (answered entry cid ran.reply)) }
{
    match keep_answer(alloc, held, gxid, cid, entry, &ran.reply) {
        Ok(()) => Ok(ran),
        Err(error) => {
            drop(ran);
            Err(error)
        }
    }
}

// What the query comes to by what its condition makes of the rows that are shown.
fn selection(
    alloc: Global,
    gxid: Gxid,
    cid: Cid,
    wrote: bool,
    query: &Query,
    picked: Picked,
) -> Mem<Ran>
    ensures { IfOk result (IsToldOf gxid cid wrote query.now picked) }
{
    match picked {
        Picked::Rows(kept) => {
            let part = Shared::new(alloc, partial(alloc, query, kept.as_slice())?)?;
            Ok(Ran {
                marks: Seq::new(alloc),
                reply: Reply::Done {
                    cid,
                    wrote,
                    count: 0,
                    part,
                },
            })
        }
        Picked::Fault(row, fault) => faulted(alloc, gxid, cid, row, fault),
    }
}

pub(crate) fn faulted(
    alloc: Global,
    gxid: Gxid,
    cid: Cid,
    row: KeyedRow,
    fault: ArithFault,
) -> Mem<Ran>
    ensures { IfOk result (IsFaulted gxid cid row fault) }
{
    let KeyedRow { rid, row } = row;
    let mut marks = Seq::new(alloc);
    marks.push(Mark::Fault {
        gxid,
        cid,
        rid,
        image: Some(row),
    })?;
    let cause = Shared::new(alloc, cause(fault))?;
    Ok(Ran {
        marks,
        reply: Reply::Failed { cid, cause },
    })
}

pub(crate) fn cause(fault: ArithFault) -> Cause
    ensures { result ≡ cause_of fault }
{
    match fault {
        ArithFault::Overflow => Cause::Overflow,
        ArithFault::DivisionByZero => Cause::DivisionByZero,
    }
}
