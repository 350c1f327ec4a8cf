// Whether rounds of the detector name whom they are to name.
ghost use Rattle.std.specs.Prelude.{◌≡◌, ◌↔◌, ◌∷◌, [], None, Option, IfOk, OnOk, IsTrue, option_copied};
ghost use Rattle.std.specs.Option.{option_or};
ghost use Rattle.gx_store.specs.Rounds.{last_report as report_of};
ghost use Rattle.gx_waits.specs.LocalGraph.{edges_of};
ghost use Rattle.gx_waits.specs.Victims.{AreVictims};
ghost use Rattle.gx_waits.specs.declared.graph.LocalGraph.{LocalGraph as OneGraph};
ghost use Rattle.gx_judging.specs.Standing.{AreLocks};
ghost use Rattle.gx_judging.specs.Victims.{DoesCoreStand, IsNamedRightly, NameRightly, NamesRightly, reports_of};

use crate::locks::{Locks, no_locks, note_mark};
use crate::standing::does_core_stand;
use gx_detect::victims;
use gx_ids::{Duplicate, Gxid, Mem, Node};
use gx_script::Script;
use gx_store::Mark;
use gx_waits::{LocalGraph, Verdict};
use std::alloc::Global;

fn report_in(mark: &Mark, node: Node, round: u64) -> Option<&LocalGraph>
    ensures { (graph : Option OneGraph) → report_of node round graph (mark.now ∷ []) ≡ option_or (option_copied result) graph }
{
    match mark {
        Mark::Report {
            node: reporter,
            round: asked,
            graph,
        } if reporter.0 == node.0 && *asked == round => Some(graph),
        _ => None,
    }
}

// What the node has reported last for the round.
fn last_report(marks: &[Mark], node: Node, round: u64) -> Option<&LocalGraph>
    ensures { option_copied result ≡ report_of node round None marks.now }
{
    for place in (0..marks.len()).rev() {
        if let Some(graph) = report_in(&marks[place], node, round) {
            return Some(graph);
        }
    }
    None
}

// The coordinator's graph of a round, and those of the segments.
fn graphs_of(
    alloc: Global,
    marks: &[Mark],
    segments: u8,
    round: u64,
    own: &LocalGraph,
) -> Mem<Vec<LocalGraph>>
    ensures { IfOk result (λ graphs. graphs.items ≡ own.now ∷ reports_of marks.now round segments) }
{
    let mut graphs = Vec::new(alloc);
    graphs.push(own.copy(alloc)?)?;
    for number in 0..segments {
        if let Some(graph) = last_report(marks, Node(number + 1), round) {
            graphs.push(graph.copy(alloc)?)?;
        }
    }
    Ok(graphs)
}

fn are_same(a: &[Gxid], b: &[Gxid]) -> bool
    ensures { IsTrue result ↔ (a.now ≡ b.now) }
{
    *a == *b
}

fn are_victims(alloc: Global, graphs: &[LocalGraph], named: &[Gxid]) -> Mem<bool>
    ensures { IfOk result (λ are. IsTrue are ↔ AreVictims (edges_of graphs.now) named.now) }
{
    let chosen = victims(alloc, graphs)?;
    let are = are_same(chosen.as_slice(), named);
    Ok(are)
}

fn are_named(
    alloc: Global,
    marks: &[Mark],
    locks: &Locks,
    graphs: &[LocalGraph],
    named: &[Gxid],
) -> Mem<bool>
    requires { AreLocks marks.now locks.now }
    ensures { IfOk result (λ are. IsTrue are ↔ (AreVictims (edges_of graphs.now) named.now × DoesCoreStand marks.now (edges_of graphs.now))) }
{
    if !are_victims(alloc, graphs, named)? {
        return Ok(false);
    }
    does_core_stand(alloc, locks, graphs)
}

fn is_named_rightly(
    alloc: Global,
    script: &Script,
    marks: &[Mark],
    locks: &Locks,
    round: u64,
    own: &LocalGraph,
    verdict: &Verdict,
) -> Mem<bool>
    requires { AreLocks marks.now locks.now }
    ensures { IfOk result (λ is. IsTrue is ↔ IsNamedRightly script.now marks.now round own.now verdict.now) }
{
    match verdict {
        Verdict::Victims(named) => {
            let graphs = graphs_of(alloc, marks, script.segments, round, own)?;
            are_named(alloc, marks, locks, graphs.as_slice(), named.as_slice())
        }
        _ => Ok(true),
    }
}

fn names_rightly(
    alloc: Global,
    script: &Script,
    before: &[Mark],
    locks: &Locks,
    mark: &Mark,
) -> Mem<bool>
    requires { AreLocks before.now locks.now }
    ensures { IfOk result (λ is. IsTrue is ↔ NamesRightly script.now before.now mark.now) }
{
    match mark {
        Mark::Recheck {
            round,
            own,
            verdict,
        } => is_named_rightly(alloc, script, before, locks, *round, own.get(), verdict),
        _ => Ok(true),
    }
}

/// Whether each round that the marks end names whom it is to name.
pub(crate) fn name_rightly(alloc: Global, script: &Script, marks: &[Mark]) -> Mem<bool>
    ensures { IfOk result (λ are. IsTrue are ↔ NameRightly script.now [] marks.now) }
{
    let mut locks = no_locks(alloc)?;
    for number in 0..marks.len() {
        let mark = &marks[number];
        if !names_rightly(alloc, script, &marks[..number], &locks, mark)? {
            return Ok(false);
        }
        note_mark(alloc, &mut locks, mark)?;
    }
    Ok(true)
}
