ghost use Rattle.std.specs.Prelude.{◌≡◌, ◌==◌, ◌&&◌, ◌+◌, ◌∷◌, true, length, IfOk, IsOkAnd, OnOk, OnErr};
ghost use Rattle.std.specs.Option.{ForSome, option_map};
ghost use Rattle.gx_waits.specs.Victims.{IsVerdict};
ghost use Rattle.gx_detect.specs.Deadlocks.{NamesVictims};
ghost use Rattle.gx_detect.specs.Reports.{IsSegment, noted};
ghost use Rattle.gx_detect.specs.Rounds.{HasNumber, are_all, awaits, collects, ended, gathered, graphs_in, heard, is_complete, is_idle, no_rounds, started};
ghost use Rattle.gx_detect.specs.Verdicts.{verdict_of};

use crate::reports::Reports;
use crate::verdict::verdict_of;
use gx_ids::{Gxid, Mem, Node};
use gx_msg::{Message, Out};
use gx_waits::{LocalGraph, Verdict};
use std::alloc::Global;
use std::marker::Model;

/// The coordinator's rounds, of which one runs at a time. The segments' graphs may come in any order, late, or more than once.
#[derive(Drop)]
pub struct Detector {
    alloc: Global,
    segments: u8,
    begun: u64,
    running: Option<Reports>,
}

impl Model for Detector {
    ghost use Rattle.gx_detect.specs.Rounds.{Rounds, AreOfSegments};

    ghost Value = { Rounds };

    ghost view = { λ a. record { segments = a.segments; begun = a.begun; reports = a.running } };

    ghost invariant = { λ a. AreOfSegments a.segments a.running };
}

impl Detector {
    /// No round yet. Later calls take what memory they need from the same allocator.
    pub fn new(alloc: Global, segments: u8) -> Mem<Detector>
        ensures { IsOkAnd result (λ detector. detector ≡ no_rounds segments) }
    {
        Ok(Detector {
            alloc,
            segments,
            begun: 0,
            running: None,
        })
    }

    /// Whether no round runs.
    pub fn idle(&self) -> bool
        ensures { result ≡ is_idle self.now }
    {
        self.running.is_none()
    }

    /// The number of the round that began last, and 0 before the first.
    pub fn round(&self) -> u64
        ensures { result ≡ self.now.begun }
    {
        self.begun
    }

    /// Whether a round runs in which the segment hasn't reported yet.
    pub fn awaits(&self, segment: Node) -> bool
        ensures { result ≡ awaits self.now segment }
    {
        match &self.running {
            Some(reports) => reports.lacks(segment),
            None => false,
        }
    }

    /// Begins the next round, numbered from 1. The answer asks each segment for its graph.
    pub fn start(&mut self) -> Mem<Vec<Out>>
        requires idle { is_idle self.old ≡ true }
        requires number { HasNumber self.old }
        ensures outs { IfOk result (λ outs. outs.items ≡ collects self.old.segments (self.old.begun + 1)) }
        ensures ok { OnOk result (self.new ≡ started self.old) }
        ensures err { OnErr result (self.new ≡ self.old) }
    {
        let round = self.begun + 1;
        let outs = orders(self.alloc, self.segments, round)?;
        let reports = Reports::new(self.alloc, self.segments)?;
        self.begun = round;
        self.running = Some(reports);
        Ok(outs)
    }

    /// A segment's graph for a round has come. The answer is whether that round runs and every segment has now reported. A
    /// graph of another round, and one of a segment that has reported, change nothing. This call takes no memory.
    pub fn report(&mut self, round: u64, graph: LocalGraph) -> Mem<bool>
        requires { IsSegment self.old.segments graph.node }
        ensures complete { IsOkAnd result (λ complete. complete ≡ ((round == self.old.begun) && is_complete self.new)) }
        ensures heard { self.new ≡ heard self.old round graph }
    {
        if round != self.begun {
            return Ok(false);
        }
        Ok(note_in(&mut self.running, graph))
    }

    /// Ends the round with what its reports, the coordinator's own graph of this moment and the transactions that may still
    /// be cancelled come to.
    pub fn recheck(&mut self, own: LocalGraph, active: &[Gxid]) -> Mem<Verdict>
        requires { is_complete self.old ≡ true }
        ensures verdict { IfOk result (λ verdict. IsVerdict (gathered self.old own) active.now verdict) }
        ensures computed { IfOk result (λ verdict. verdict ≡ verdict_of (gathered self.old own) active.now) }
        ensures victims { IfOk result (λ verdict. NamesVictims (gathered self.old own) verdict) }
        ensures ok { OnOk result (self.new ≡ ended self.old) }
        ensures err { OnErr result (self.new ≡ self.old) }
    {
        let graphs = gather(self.alloc, own, &self.running)?;
        let verdict = verdict_of(self.alloc, graphs.as_slice(), active)?;
        self.running = None;
        Ok(verdict)
    }
}

// What asks each of so many segments for its graph.
fn orders(alloc: Global, segments: u8, round: u64) -> Mem<Vec<Out>>
    ensures { IfOk result (λ outs. outs.items ≡ collects segments round) }
{
    let mut outs = Vec::new(alloc);
    for place in 0..segments {
        outs.push(Out {
            node: Node(place + 1),
            message: Message::Collect(round),
        })?;
    }
    Ok(outs)
}

// A segment's graph has come. The answer is whether a round runs and every segment has now reported.
fn note_in(running: &mut Option<Reports>, graph: LocalGraph) -> bool
    requires { ForSome running.old (λ reports. IsSegment (length reports) graph.node) }
    ensures noted { running.new ≡ option_map (λ reports. noted reports graph) running.old }
    ensures complete { result ≡ are_all running.new }
{
    match running {
        Some(reports) => {
            reports.note(graph);
            reports.are_all()
        }
        None => false,
    }
}

// The coordinator's own graph, and copies of those that were reported.
fn gather(alloc: Global, own: LocalGraph, running: &Option<Reports>) -> Mem<Vec<LocalGraph>>
    ensures { IfOk result (λ graphs. graphs.items ≡ own ∷ graphs_in running.now) }
{
    match running {
        Some(reports) => reports.with_own(alloc, own),
        None => {
            let mut graphs = Vec::new(alloc);
            graphs.push(own)?;
            Ok(graphs)
        }
    }
}
