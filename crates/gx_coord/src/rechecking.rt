// Graphs of segments, and what a round comes to with the last of them.
ghost use Rattle.std.specs.Prelude.{◌≡◌, ◌==◌, ◌++◌, ◌∷◌, [], true, IfOk, OnOk};
ghost use Rattle.gx_detect.specs.Reports.{IsSegment};
ghost use Rattle.gx_detect.specs.Rounds.{are_all};
ghost use Rattle.gx_locks.specs.Graphs.{graph_at};
ghost use Rattle.gx_rules.specs.Rounds as rounds;
ghost use Rattle.gx_coord.specs.Books.{IsFramed, coord_of};
ghost use Rattle.gx_coord.specs.Turns.{IsTurn};

use crate::coord::Coord;
use crate::rounds::{awaits_graph, last_round};
use gx_ids::{Duplicate, Gxid, Mem, Node, Seq, Shared};
use gx_store::Mark;
use gx_waits::{LocalGraph, Verdict};
use std::alloc::Global;

// Whether the graph is of the segment that sends it, for the round that runs, and the first from there.
fn is_report(coord: &Coord, from: Node, round: u64, graph: &LocalGraph) -> bool
    ensures { result ≡ rounds.is_report (coord_of coord.now) from round graph.now }
{
    graph.node == from && (round == last_round(coord) && awaits_graph(coord, from))
}

// The graph is noted; the answer is whether every segment has now reported.
fn note_report(coord: &mut Coord, round: u64, graph: LocalGraph) -> Mem<bool>
    requires segment { IsSegment coord.old.detector.segments graph.node }
    requires last { (round == coord.old.detector.begun) ≡ true }
    ensures framed { OnOk result (IsFramed coord.old coord.new) }
    ensures coord { OnOk result (coord_of coord.new ≡ rounds.with_report (coord_of coord.old) graph) }
    ensures all { IfOk result (λ all. all ≡ are_all (coord_of coord.new).reports) }
{
    let all = coord.detector.report(round, graph)?;
    Ok(all)
}

// Whom a verdict cancels.
fn victims_of(alloc: Global, verdict: Verdict) -> Seq<Gxid>
    ensures { result ≡ rounds.victims_in verdict }
{
    match verdict {
        Verdict::Victims(victims) => victims,
        _ => Seq::new(alloc),
    }
}

// The active transactions, rising.
fn active(coord: &Coord) -> Mem<Vec<Gxid>>
    ensures { IfOk result (λ active. active.items ≡ rounds.active_in coord.now.dtx) }
{
    coord.dtx.active()
}

// Who waits for whom at the coordinator.
pub(crate) fn own_graph(coord: &Coord) -> Mem<LocalGraph>
    ensures { IfOk result (λ graph. graph ≡ graph_at coord.now.locks) }
{
    coord.locks.graph()
}

// The verdict over the coordinator's own graph and all reports, which ends the round.
fn decide(coord: &mut Coord, own: LocalGraph) -> Mem<Verdict>
    requires all { are_all (coord_of coord.old).reports ≡ true }
    requires own { own ≡ graph_at coord.old.locks }
    ensures framed { OnOk result (IsFramed coord.old coord.new) }
    ensures coord { OnOk result (coord_of coord.new ≡ (rounds.rechecks (coord_of coord.old)).coord) }
    ensures verdict { IfOk result (λ verdict. verdict ≡ rounds.verdict_at (coord_of coord.old)) }
{
    let active = active(coord)?;
    let verdict = coord.detector.recheck(own, active.as_slice())?;
    Ok(verdict)
}

fn push_recheck(
    alloc: Global,
    marks: &mut Vec<Mark>,
    round: u64,
    own: LocalGraph,
    verdict: &Verdict,
) -> Mem<()>
    ensures { OnOk result (marks.new.items ≡ marks.old.items ++ Mark.Recheck round own verdict.now ∷ []) }
{
    let own = Shared::new(alloc, own)?;
    let verdict = verdict.copy(alloc)?;
    marks.push(Mark::Recheck {
        round,
        own,
        verdict,
    })?;
    Ok(())
}

// Every segment has reported: the round ends with its verdict. The answer is whom it cancels.
fn recheck(alloc: Global, coord: &mut Coord, marks: &mut Vec<Mark>) -> Mem<Seq<Gxid>>
    requires { are_all (coord_of coord.old).reports ≡ true }
    ensures turn { OnOk result (IsTurn coord.old coord.new marks.old.items marks.new.items (rounds.rechecks (coord_of coord.old))) }
    ensures victims { IfOk result (λ victims. victims ≡ rounds.victims_in (rounds.verdict_at (coord_of coord.old))) }
{
    let round = last_round(coord);
    let own = own_graph(coord)?;
    let verdict = decide(coord, own.copy(alloc)?)?;
    push_recheck(alloc, marks, round, own, &verdict)?;
    Ok(victims_of(alloc, verdict))
}

fn recheck_once_all(
    alloc: Global,
    coord: &mut Coord,
    all: bool,
    marks: &mut Vec<Mark>,
) -> Mem<Seq<Gxid>>
    requires { all ≡ are_all (coord_of coord.old).reports }
    ensures turn { OnOk result (IsTurn coord.old coord.new marks.old.items marks.new.items (rounds.once_all (coord_of coord.old))) }
    ensures victims { IfOk result (λ victims. victims ≡ rounds.victims_once_all (coord_of coord.old)) }
{
    if all {
        recheck(alloc, coord, marks)
    } else {
        Ok(Seq::new(alloc))
    }
}

// A segment's graph has come, and the last one brings the recheck. The answer is whom that cancels.
pub(crate) fn hear(
    alloc: Global,
    coord: &mut Coord,
    from: Node,
    round: u64,
    graph: &LocalGraph,
    marks: &mut Vec<Mark>,
) -> Mem<Seq<Gxid>>
    requires { IsSegment coord.old.detector.segments from }
    ensures turn { OnOk result (IsTurn coord.old coord.new marks.old.items marks.new.items (rounds.on_graph (coord_of coord.old) from round graph.now)) }
    ensures victims { IfOk result (λ victims. victims ≡ rounds.victims_on_graph (coord_of coord.old) from round graph.now) }
{
    if is_report(coord, from, round, graph) {
        let all = note_report(coord, round, graph.copy(alloc)?)?;
        recheck_once_all(alloc, coord, all, marks)
    } else {
        Ok(Seq::new(alloc))
    }
}
