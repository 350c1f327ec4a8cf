//! Laws of verdicts, and of the rounds, over every list of calls and every list of reports.
ghost use Rattle.std.specs.Prelude.{◌≡◌, ◌↔◌, ◌∷◌, ℕ, List, true, false};
ghost use Rattle.gx_ids.specs.declared.ids.Gxid.{Gxid};
ghost use Rattle.gx_ids.specs.declared.ids.Node.{Node};
ghost use Rattle.gx_waits.specs.Victims.{IsVerdict};
ghost use Rattle.gx_waits.specs.declared.graph.LocalGraph.{LocalGraph};
ghost use Rattle.gx_waits.specs.declared.placed_edge.PlacedEdge.{PlacedEdge};
ghost use Rattle.gx_waits.specs.declared.verdict.Verdict.{Verdict};
ghost use Rattle.gx_detect.specs.Reports.{IsSegment};
ghost use Rattle.gx_detect.specs.Rounds.{Rounds, awaits, gathered, is_complete, started};
ghost use Rattle.gx_detect.specs.Calls.{AreOfFirstReports, Call, HasReported, HaveAllReported, Hear, Report, after, after_reports, begun_by, heard_since, is_running, of_segment, told};
ghost use Rattle.gx_detect.specs.Verdicts.{verdict_of};

/// The computed verdict is the one that is defined, and no other is.
pub fn verdict_is_computed()
    ensures is { (edges : List PlacedEdge) (active : List Gxid) → IsVerdict edges active (verdict_of edges active) }
    ensures no_other { (edges : List PlacedEdge) (active : List Gxid) (verdict : Verdict) → IsVerdict edges active verdict → verdict ≡ verdict_of edges active }
{}

/// The rounds are as the calls tell: as many have begun as were started, the last runs from its start to its recheck, and in
/// it the first graph counts that came from each segment for it since it began.
pub fn calls_tell_the_rounds()
    ensures { (segments : ℕ) (calls : List Call) → after segments calls ≡ told segments calls }
{}

/// A round is complete exactly where it runs and a graph came for it from every segment since it began.
pub fn complete_is_a_report_of_each_segment()
    ensures { (segments : ℕ) (calls : List Call) → (is_complete (after segments calls) ≡ true) ↔ ((is_running calls ≡ true) × HaveAllReported segments calls) }
{}

/// A segment's graph is awaited exactly while a round runs and none came for it from there since it began.
pub fn awaited_segments_have_not_reported()
    ensures { (segments : ℕ) (calls : List Call) (segment : Node) → (awaits (after segments calls) segment ≡ true)
        ↔ ((is_running calls ≡ true) × IsSegment segments segment × (HasReported (begun_by calls) segment.0 (heard_since calls) → ⊥)) }
{}

/// A complete round is decided over the coordinator's own graph and the first graph of each segment, in their order.
pub fn rechecks_are_over_first_reports()
    ensures { (segments : ℕ) (calls : List Call) (own : LocalGraph) → is_complete (after segments calls) ≡ true
        → AreOfFirstReports segments calls own (gathered (after segments calls) own) }
{}

/// A graph changes nothing where its round isn't the one that runs, or where its segment has reported.
pub fn other_graphs_change_nothing()
    ensures no_round { (segments : ℕ) (calls : List Call) (report : Report) → is_running calls ≡ false
        → after segments (Hear report ∷ calls) ≡ after segments calls }
    ensures late_or_early { (segments : ℕ) (calls : List Call) (report : Report) → (report.round ≡ begun_by calls → ⊥)
        → after segments (Hear report ∷ calls) ≡ after segments calls }
    ensures repeated { (segments : ℕ) (calls : List Call) (report : Report) → HasReported (begun_by calls) report.graph.node.0 (heard_since calls)
        → after segments (Hear report ∷ calls) ≡ after segments calls }
{}

/// Segments may report in any order: two lists in which each segment's own reports are the same, in the same order, lead to
/// the same round.
pub fn segments_report_in_any_order()
    ensures { (d : Rounds) (xs ys : List Report) → ((segment : ℕ) → of_segment segment xs ≡ of_segment segment ys)
        → after_reports (started d) xs ≡ after_reports (started d) ys }
{}
