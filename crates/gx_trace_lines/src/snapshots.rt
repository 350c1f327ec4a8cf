// The marks of snapshots.
ghost use Rattle.std.specs.Prelude.{◌≡◌, ◌∷◌, true, IfOk, Some};
ghost use Rattle.gx_dsnap.specs.Gxids as dsnap;
ghost use Rattle.gx_trace.specs.Readers.{IsRead};
ghost use Rattle.gx_trace_lines.specs.Marks as of;
ghost use Rattle.gx_trace_lines.specs.Snapshots as shot;

use crate::marks::MarkLine;
use crate::rows::command;
use gx_dsnap::Snapshot;
use gx_ids::{Gxid, Mem, Seq, Shared};
use gx_store::Mark;
use gx_trace::{Cursor, SeenMark};
use std::alloc::Global;

fn rises_behind(first: Gxid, others: &[Gxid]) -> bool
    ensures { result ≡ shot.rises (first ∷ others.now) }
{
    let mut last = first;
    for gxid in others {
        if last.0 >= gxid.0 {
            return false;
        }
        last = *gxid;
    }
    true
}

fn rises(gxids: &[Gxid]) -> bool
    ensures { result ≡ shot.rises gxids.now }
{
    match gxids {
        [first, others @ ..] => rises_behind(*first, others),
        [] => true,
    }
}

fn are_below(limit: Gxid, gxids: &[Gxid]) -> bool
    ensures { result ≡ shot.are_below limit.0 gxids.now }
{
    for gxid in gxids {
        if gxid.0 >= limit.0 {
            return false;
        }
    }
    true
}

fn first_or(gxids: &[Gxid], other: Gxid) -> Gxid
    ensures { result ≡ dsnap.first_or gxids.now other }
{
    match gxids {
        [first, ..] => *first,
        [] => other,
    }
}

fn is_snapshot(xmin: Gxid, xmax: Gxid, running: &[Gxid]) -> bool
    ensures { result ≡ shot.is_snapshot xmin xmax running.now }
{
    rises(running) && are_below(xmax, running) && xmin.0 == first_or(running, xmax).0
}

fn taken(alloc: Global, xmin: Gxid, xmax: Gxid, running: Seq<Gxid>) -> Mem<Snapshot>
    requires { shot.is_snapshot xmin xmax running ≡ true }
    ensures { IfOk result (λ snapshot. shot.snapshot_if xmin xmax running ≡ Some snapshot) }
{
    let running = Shared::new(alloc, running)?;
    Ok(Snapshot {
        xmin,
        xmax,
        running,
    })
}

fn snapshot_if(alloc: Global, xmin: Gxid, xmax: Gxid, running: Seq<Gxid>) -> Mem<Option<Snapshot>>
    ensures { IfOk result (λ snapshot. snapshot ≡ shot.snapshot_if xmin xmax running) }
{
    if is_snapshot(xmin, xmax, running.as_slice()) {
        let snapshot = taken(alloc, xmin, xmax, running)?;
        Ok(Some(snapshot))
    } else {
        drop(running);
        Ok(None)
    }
}

// The bounds, and the word behind them.
fn bounds<'a>(cursor: &mut Cursor<'a>) -> Option<(Gxid, Gxid)>
    ensures { IsRead result cursor.new (shot.bounds cursor.old) }
{
    cursor.skip(b" xmin")?;
    let xmin = cursor.gxid()?;
    cursor.skip(b" xmax")?;
    let xmax = cursor.gxid()?;
    Some((xmin, xmax))
}

fn running<'a>(alloc: Global, cursor: &mut Cursor<'a>) -> Mem<Option<Seq<Gxid>>>
    ensures { IfOk result (λ read. IsRead read cursor.new (shot.running cursor.old)) }
{
    match cursor.skip(b" running") {
        Some(()) => cursor.gxids(alloc),
        None => Ok(None),
    }
}

fn snapshot<'a>(alloc: Global, cursor: &mut Cursor<'a>) -> Mem<Option<Snapshot>>
    ensures { IfOk result (λ read. IsRead read cursor.new (shot.snapshot cursor.old)) }
{
    let Some((xmin, xmax)) = bounds(cursor) else {
        return Ok(None);
    };
    match running(alloc, cursor)? {
        Some(running) => snapshot_if(alloc, xmin, xmax, running),
        None => Ok(None),
    }
}

pub fn snapped<'a>(alloc: Global, cursor: &mut Cursor<'a>) -> Mem<Option<MarkLine>>
    ensures { IfOk result (λ read. IsRead read cursor.new (of.snapped cursor.old)) }
{
    let Some((gxid, cid)) = command(cursor) else {
        return Ok(None);
    };
    match snapshot(alloc, cursor)? {
        Some(snapshot) => Ok(Some(MarkLine::Alone(SeenMark::Whole(Mark::Snap {
            gxid,
            cid,
            snapshot,
        })))),
        None => Ok(None),
    }
}
