// The marks of the detector.
ghost use Rattle.std.specs.Prelude.{◌≡◌, ◌∷◌, IfOk};
ghost use Rattle.std.specs.Ordering.{is_gt};
ghost use Rattle.gx_report.specs.LockText.{edge_order};
ghost use Rattle.gx_trace.specs.Readers.{IsRead, behind};
ghost use Rattle.gx_trace_lines.specs.Edges.{are_in_order};
ghost use Rattle.gx_trace_lines.specs.Marks as of;

use crate::choices::skips;
use crate::marks::MarkLine;
use gx_ids::{Mem, Node, Seq};
use gx_store::Mark;
use gx_trace::{Cursor, SeenMark};
use gx_waits::{Edge, LocalGraph, Verdict};
use std::alloc::Global;

// Whether an edge is printed below another.
fn stands_behind(edge: &Edge, other: &Edge) -> bool
    ensures { result ≡ is_gt (edge_order edge.now other.now) }
{
    if edge.waiter != other.waiter {
        edge.waiter > other.waiter
    } else if edge.holder != other.holder {
        edge.holder > other.holder
    } else {
        edge.dotted && !other.dotted
    }
}

fn are_in_order_behind(first: &Edge, others: &[Edge]) -> bool
    ensures { result ≡ are_in_order (first.now ∷ others.now) }
{
    let mut last = *first;
    for edge in others {
        if stands_behind(&last, edge) {
            return false;
        }
        last = *edge;
    }
    true
}

fn are_in_order(edges: &[Edge]) -> bool
    ensures { result ≡ are_in_order edges.now }
{
    match edges {
        [first, others @ ..] => are_in_order_behind(first, others),
        [] => true,
    }
}

fn graph<'a>(alloc: Global, cursor: &mut Cursor<'a>) -> Mem<Option<Seq<Edge>>>
    ensures { IfOk result (λ read. IsRead read cursor.new (of.graph cursor.old)) }
{
    let Some(edges) = cursor.edges(alloc)? else {
        return Ok(None);
    };
    if are_in_order(edges.as_slice()) {
        Ok(Some(edges))
    } else {
        drop(edges);
        Ok(None)
    }
}

// A round, and a colon.
fn round<'a>(cursor: &mut Cursor<'a>) -> Option<u64>
    ensures { IsRead result cursor.new (of.round cursor.old) }
{
    let round = cursor.count()?;
    cursor.skip(b":")?;
    Some(round)
}

// A node and a round.
fn reported<'a>(cursor: &mut Cursor<'a>) -> Option<(Node, u64)>
    ensures { IsRead result cursor.new (of.reported cursor.old) }
{
    let node = cursor.node()?;
    let round = round(cursor)?;
    Some((node, round))
}

fn report_of(node: Node, round: u64, edges: Seq<Edge>) -> MarkLine
    ensures { result ≡ of.report_of ((node, round), edges) }
{
    if node.0 == 0 {
        MarkLine::Own(round, edges)
    } else {
        let graph = LocalGraph { node, edges };
        MarkLine::Alone(SeenMark::Whole(Mark::Report { node, round, graph }))
    }
}

pub fn report<'a>(alloc: Global, cursor: &mut Cursor<'a>) -> Mem<Option<MarkLine>>
    ensures { IfOk result (λ read. IsRead read cursor.new (of.report cursor.old)) }
{
    let Some((node, round)) = reported(cursor) else {
        return Ok(None);
    };
    match graph(alloc, cursor)? {
        Some(edges) => Ok(Some(report_of(node, round, edges))),
        None => Ok(None),
    }
}

fn dropped<'a>(cursor: &mut Cursor<'a>) -> Option<Verdict>
    ensures { IsRead result cursor.new (of.dropped cursor.old) }
{
    let gxid = cursor.gxid()?;
    Some(Verdict::Dropped(gxid))
}

fn victims<'a>(alloc: Global, cursor: &mut Cursor<'a>) -> Mem<Option<Verdict>>
    ensures { IfOk result (λ read. IsRead read cursor.new (of.victims cursor.old)) }
{
    match cursor.gxids(alloc)? {
        Some(gxids) => Ok(Some(Verdict::Victims(gxids))),
        None => Ok(None),
    }
}

fn verdict<'a>(alloc: Global, cursor: &mut Cursor<'a>) -> Mem<Option<Verdict>>
    ensures { IfOk result (λ read. IsRead read cursor.new (of.verdict_at cursor.old)) }
{
    if skips(cursor, b" nothing") {
        Ok(Some(Verdict::Nothing))
    } else if skips(cursor, b" dropped") {
        Ok(dropped(cursor))
    } else if skips(cursor, b" victims") {
        victims(alloc, cursor)
    } else {
        Ok(None)
    }
}

pub fn recheck<'a>(alloc: Global, cursor: &mut Cursor<'a>) -> Mem<Option<MarkLine>>
    ensures { IfOk result (λ read. IsRead read cursor.new (of.recheck cursor.old)) }
{
    let Some(round) = round(cursor) else {
        return Ok(None);
    };
    match verdict(alloc, cursor)? {
        Some(verdict) => Ok(Some(MarkLine::Ended(round, verdict))),
        None => Ok(None),
    }
}
