// COLLECT: a round asks for the graph of this segment.
ghost use Rattle.std.specs.Prelude.{◌≡◌, [], None, Some, IfOk, OnOk};
ghost use Rattle.gx_locks.specs.Graphs.{graph_at};
ghost use Rattle.gx_rules.specs.AtSegment.{on_collect};
ghost use Rattle.gx_slices.specs.Agrees.{IsHeld};
ghost use Rattle.gx_segment.specs.Before.{Before};
ghost use Rattle.gx_segment.specs.Done.{HasDone, IsQuiet, came};
ghost use Rattle.gx_segment.specs.Reports.{kept, report_in, told, told_again, told_now};

use crate::done::{Done, nothing};
use gx_ids::{Duplicate, Mem, Node};
use gx_locks::LockTable;
use gx_msg::Message;
use gx_slices::Held;
use gx_store::Mark;
use gx_waits::LocalGraph;
use std::alloc::Global;

/// The last round that has asked for a graph, 0 before the first, and the graph that it was told.
#[derive(Drop)]
pub struct LastReport {
    pub round: u64,
    pub graph: Option<LocalGraph>,
}

impl LastReport {
    /// No round has asked.
    pub fn new() -> LastReport
        ensures { result ≡ record { round = 0; graph = None } }
    {
        LastReport {
            round: 0,
            graph: None,
        }
    }
}

// Answers a round with a graph, where it is new or the last one.
pub(crate) fn collect(
    alloc: Global,
    node: Node,
    held: &Held,
    report: &mut LastReport,
    round: u64,
    marks: &mut Vec<Mark>,
) -> Mem<Done>
    ghost was: { Before }
    requires node { node ≡ was.seg.node }
    requires held { IsHeld was.script.tables held.now was.seg }
    requires report { report.old ≡ report_in was.seg }
    requires blank { marks.old.items ≡ [] }
    ensures done { IfOk result (λ done. HasDone was.script.tables held.now was.seg.horizon (came marks.new.items done) (on_collect was.seg round)) }
    ensures quiet { IfOk result (λ done. IsQuiet done.fails (on_collect was.seg round)) }
    ensures report { OnOk result (report.new ≡ report_in (on_collect was.seg round).seg) }
{
    let done = tell(alloc, node, &held.locks, report, round, marks)?;
    Ok(done)
}

// A new round is told the graph of this moment, and the last one again what it was told; an older one is nothing.
fn tell(
    alloc: Global,
    node: Node,
    locks: &LockTable,
    report: &mut LastReport,
    round: u64,
    marks: &mut Vec<Mark>,
) -> Mem<Done>
    requires blank { marks.old.items ≡ [] }
    ensures done { IfOk result (λ done. came marks.new.items done ≡ told node locks.now report.old round) }
    ensures report { OnOk result (report.new ≡ kept locks.now report.old round) }
{
    if report.round < round {
        tell_now(alloc, node, locks, report, round, marks)
    } else if report.round == round {
        tell_again(alloc, round, &report.graph)
    } else {
        Ok(nothing())
    }
}

// The graph of this moment is told, and kept.
fn tell_now(
    alloc: Global,
    node: Node,
    locks: &LockTable,
    report: &mut LastReport,
    round: u64,
    marks: &mut Vec<Mark>,
) -> Mem<Done>
    requires blank { marks.old.items ≡ [] }
    ensures done { IfOk result (λ done. came marks.new.items done ≡ told_now node round (graph_at locks.now)) }
    ensures report { OnOk result (report.new ≡ record { round = round; graph = Some (graph_at locks.now) }) }
{
    let graph = locks.graph()?;
    let done = with_graph(alloc, node, round, &graph, marks)?;
    report.round = round;
    report.graph = Some(graph);
    Ok(done)
}

// The mark of a graph, and the message that has it.
fn with_graph(
    alloc: Global,
    node: Node,
    round: u64,
    graph: &LocalGraph,
    marks: &mut Vec<Mark>,
) -> Mem<Done>
    requires { marks.old.items ≡ [] }
    ensures { IfOk result (λ done. came marks.new.items done ≡ told_now node round graph.now) }
{
    let marked = graph.copy(alloc)?;
    let sent = graph.copy(alloc)?;
    marks.push(Mark::Report {
        node,
        round,
        graph: marked,
    })?;
    Ok(Done {
        answer: Some(Message::Graph(round, sent)),
        fails: false,
    })
}

fn tell_again(alloc: Global, round: u64, graph: &Option<LocalGraph>) -> Mem<Done>
    ensures { IfOk result (λ done. came [] done ≡ told_again round graph.now) }
{
    let graph = graph.copy(alloc)?;
    Ok(Done {
        answer: graph.map(|graph| Message::Graph(round, graph)),
        fails: false,
    })
}
