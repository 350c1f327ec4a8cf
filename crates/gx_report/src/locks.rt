// The texts of locks, wait graphs and verdicts.
ghost use Rattle.std.specs.Prelude.{◌≡◌, ◌++◌, IfOk, OnOk};
ghost use Rattle.std.specs.List.{flat_map};
ghost use Rattle.gx_meaning.specs.Order.{in_order};
ghost use Rattle.gx_report.specs.LockText as of;

use crate::words::{push_count_behind, push_gxids, push_number, push_rid, push_table, push_words};
use gx_ids::{Mem, Node, copies};
use gx_modes::Mode;
use gx_script::Script;
use gx_text::push_bytes;
use gx_waits::{Edge, LocalGraph, Object, Verdict};
use std::alloc::Global;
use std::cmp::Ordering;

fn push_object(alloc: Global, text: &mut Vec<u8>, script: &Script, object: Object) -> Mem<()>
    ensures { OnOk result (text.new.items ≡ text.old.items ++ of.object_text script.now object) }
{
    match object {
        Object::Relation(table) => {
            push_bytes(text, b" relation")?;
            push_table(text, script, table)
        }
        Object::Tuple(rid) => {
            push_bytes(text, b" tuple")?;
            push_rid(alloc, text, rid)
        }
        Object::Transaction(gxid) => push_words(text, b" transaction", &[gxid.0]),
    }
}

/// Adds what a lock is taken on and its mode.
pub fn push_lock(
    alloc: Global,
    text: &mut Vec<u8>,
    script: &Script,
    object: Object,
    mode: Mode,
) -> Mem<()>
    ensures { OnOk result (text.new.items ≡ text.old.items ++ of.lock_text script.now object mode) }
{
    push_object(alloc, text, script, object)?;
    push_number(text, u64::from(mode.number()))
}

fn compare_edges(left: &Edge, right: &Edge) -> Ordering
    ensures { result ≡ of.edge_order left.now right.now }
{
    left.waiter.cmp(&right.waiter).then(
        left.holder
            .cmp(&right.holder)
            .then(left.dotted.cmp(&right.dotted)),
    )
}

/// The edges by waiter, then by holder, and solid before dotted.
pub fn sorted_edges(alloc: Global, edges: &[Edge]) -> Mem<Vec<Edge>>
    ensures { IfOk result (λ sorted. sorted.items ≡ in_order of.edge_order edges.now) }
{
    let mut sorted = copies(alloc, edges)?;
    sorted.sort_by(|left, right| compare_edges(left, right))?;
    Ok(sorted)
}

fn push_edge(text: &mut Vec<u8>, edge: Edge) -> Mem<()>
    ensures { OnOk result (text.new.items ≡ text.old.items ++ of.edge_text edge) }
{
    push_number(text, edge.waiter.0)?;
    push_count_behind(text, b">", u128::from(edge.holder.0))?;
    if edge.dotted {
        push_bytes(text, b"~")?;
    }
    Ok(())
}

fn push_edges(text: &mut Vec<u8>, edges: &[Edge]) -> Mem<()>
    ensures { OnOk result (text.new.items ≡ text.old.items ++ flat_map of.edge_text edges.now) }
{
    for edge in edges {
        push_edge(text, *edge)?;
    }
    Ok(())
}

/// Adds the wait graph of a node for a round.
pub fn push_report(
    alloc: Global,
    text: &mut Vec<u8>,
    node: Node,
    round: u64,
    graph: &LocalGraph,
) -> Mem<()>
    ensures { OnOk result (text.new.items ≡ text.old.items ++ of.report_text node round graph.now) }
{
    push_words(text, b"report", &[u64::from(node.0), round])?;
    push_bytes(text, b":")?;
    let edges = sorted_edges(alloc, graph.edges.as_slice())?;
    push_edges(text, edges.as_slice())
}

fn push_verdict(text: &mut Vec<u8>, verdict: &Verdict) -> Mem<()>
    ensures { OnOk result (text.new.items ≡ text.old.items ++ of.verdict_text verdict.now) }
{
    match verdict {
        Verdict::Nothing => push_bytes(text, b" nothing"),
        Verdict::Dropped(gxid) => push_words(text, b" dropped", &[gxid.0]),
        Verdict::Victims(gxids) => {
            push_bytes(text, b" victims")?;
            push_gxids(text, gxids.as_slice())
        }
    }
}

/// Adds the coordinator's own graph and, on the next line, what the round decides.
pub fn push_recheck(
    alloc: Global,
    text: &mut Vec<u8>,
    round: u64,
    own: &LocalGraph,
    verdict: &Verdict,
) -> Mem<()>
    ensures { OnOk result (text.new.items ≡ text.old.items ++ of.recheck_text round own.now verdict.now) }
{
    push_report(alloc, text, Node(0), round, own)?;
    push_bytes(text, b"\n  ")?;
    push_words(text, b"recheck", &[round])?;
    push_bytes(text, b":")?;
    push_verdict(text, verdict)
}
