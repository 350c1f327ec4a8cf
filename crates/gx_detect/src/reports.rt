ghost use Rattle.std.specs.Prelude.{◌≡◌, ◌∷◌, None, IfOk, is_some, length, replicate};
ghost use Rattle.std.specs.List.{filter_map, list_all};
ghost use Rattle.gx_detect.specs.Reports.{IsSegment, lacks_from, noted};

use gx_ids::{Duplicate, Mem, Node};
use gx_waits::LocalGraph;
use std::alloc::Global;
use std::marker::Model;

/// What the segments have reported in a round. Contracts see a place for each segment, in their order.
#[derive(Drop)]
pub struct Reports {
    graphs: Vec<Option<LocalGraph>>,
}

impl Model for Reports {
    ghost use Rattle.std.specs.Prelude.{List, Option};
    ghost use Rattle.gx_waits.specs.declared.graph.LocalGraph.{LocalGraph};

    ghost Value = { List (Option LocalGraph) };

    ghost view = { λ a. a.graphs.items };
}

impl Reports {
    /// Nobody has reported.
    pub fn new(alloc: Global, segments: u8) -> Mem<Reports>
        ensures { IfOk result (λ reports. reports ≡ replicate segments None) }
    {
        Ok(Reports {
            graphs: no_graphs(alloc, segments)?,
        })
    }

    /// Takes note of a segment's graph. One that came before it stays.
    pub fn note(&mut self, graph: LocalGraph)
        requires { IsSegment (length self.old) graph.node }
        ensures { self.new ≡ noted self.old graph }
    {
        let report = &mut self.graphs[usize::from(graph.node.0) - 1];
        *report = Some(report.take().unwrap_or(graph));
    }

    /// Whether the segment hasn't reported.
    pub fn lacks(&self, segment: Node) -> bool
        ensures { result ≡ lacks_from 1 self.now segment }
    {
        let graphs = self.graphs.as_slice();
        let place = usize::from(segment.0);
        if place == 0 {
            return false;
        }
        if place > graphs.len() {
            return false;
        }
        graphs[place - 1].is_none()
    }

    /// Whether every segment has reported.
    pub fn are_all(&self) -> bool
        ensures { result ≡ list_all is_some self.now }
    {
        self.graphs.iter().all(|report| report.is_some())
    }

    /// The coordinator's own graph, and copies of those that came, in the order of their nodes.
    pub fn with_own(&self, alloc: Global, own: LocalGraph) -> Mem<Vec<LocalGraph>>
        ensures { IfOk result (λ graphs. graphs.items ≡ own ∷ filter_map (λ report. report) self.now) }
    {
        copies_behind(alloc, own, self.graphs.as_slice())
    }
}

fn no_graphs(alloc: Global, segments: u8) -> Mem<Vec<Option<LocalGraph>>>
    ensures { IfOk result (λ graphs. graphs.items ≡ replicate segments None) }
{
    let mut graphs = Vec::with_capacity(alloc, usize::from(segments))?;
    for _segment in 0..segments {
        graphs.push(None)?;
    }
    Ok(graphs)
}

fn copies_behind(
    alloc: Global,
    own: LocalGraph,
    reports: &[Option<LocalGraph>],
) -> Mem<Vec<LocalGraph>>
    ensures { IfOk result (λ graphs. graphs.items ≡ own ∷ filter_map (λ report. report) reports.now) }
{
    let mut graphs = Vec::new(alloc);
    graphs.push(own)?;
    for report in reports {
        if let Some(graph) = report {
            graphs.push(graph.copy(alloc)?)?;
        }
    }
    Ok(graphs)
}
