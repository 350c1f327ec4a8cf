//! Laws of the detector's rounds, and of who waits for whom, told by what the nodes hold after a run that is reached.
ghost use Rattle.std.specs.Prelude.{◌≡◌, ◌≤◌, Bool, true, ◌&&◌, if◌then◌else◌, not, List, [], ◌∷◌, None};
ghost use Rattle.std.specs.List.{list_any};
ghost use Rattle.gx_ids.specs.declared.ids.Node.{Node as OneNode};
ghost use Rattle.gx_locks.specs.Graphs.{graph_at};
ghost use Rattle.gx_law_runs.specs.Reached.{IsReached};
ghost use Rattle.gx_law_runs.specs.Replays.{coordinator_after, is_admitted, segment_after};
ghost use Rattle.gx_rules.specs.AtCoordinator.{is_segment};
ghost use Rattle.gx_script.specs.declared.Script.{Script};
ghost use Rattle.gx_store.specs.Cancelled.{wait_graph};
ghost use Rattle.gx_store.specs.Points.{marks_in};
ghost use Rattle.gx_store.specs.Refusals.{the_coordinator};
ghost use Rattle.gx_store.specs.Schedule.{is_any_wait, is_graph_awaited, is_round_running, rounds, segments_of};
ghost use Rattle.gx_store.specs.declared.event.Event.TheVariants.{Resend, Round};
ghost use Rattle.gx_store.specs.declared.run.Step.{Step as OneStep};

/// A segment's graph is awaited by the steps exactly where it may be asked for again.
pub fn awaited_graphs_may_be_asked_for_again()
    ensures { (script : Script) (steps : List OneStep) (segment : OneNode) → 1 ≤ script.segments → IsReached script steps → is_segment script segment ≡ true
        → is_graph_awaited steps segment ≡ is_admitted script steps (Resend segment None) }
{}

/// A round may begin exactly where the script has a detector and no round runs.
pub fn rounds_may_begin_where_none_runs()
    ensures { (script : Script) (steps : List OneStep) → 1 ≤ script.segments → IsReached script steps → is_admitted script steps Round ≡ (script.detector && not (is_round_running steps)) }
{}

/// So one is enabled exactly where it may begin and somebody waits.
pub fn rounds_begin_where_somebody_waits()
    ensures { (script : Script) (steps : List OneStep) → 1 ≤ script.segments → IsReached script steps
        → rounds script steps ≡ (if is_admitted script steps Round && is_any_wait script (marks_in steps) then Round ∷ [] else []) }
{}

/// While a round runs, some segment's graph is awaited.
pub fn running_rounds_await_a_graph()
    ensures { (script : Script) (steps : List OneStep) → 1 ≤ script.segments → IsReached script steps
        → is_round_running steps ≡ true → list_any (is_graph_awaited steps) (segments_of script) ≡ true }
{}

/// The graph of the coordinator's locks has, in order, the edges of the waits and holds that stand there by the marks.
pub fn the_coordinators_locks_give_its_wait_graph()
    ensures { (script : Script) (steps : List OneStep) → 1 ≤ script.segments → IsReached script steps
        → graph_at (coordinator_after script steps).locks ≡ wait_graph (marks_in steps) the_coordinator }
{}

/// And so it is at a segment.
pub fn a_segments_locks_give_its_wait_graph()
    ensures { (script : Script) (steps : List OneStep) (segment : OneNode) → 1 ≤ script.segments → IsReached script steps → 1 ≤ segment.0
        → graph_at (segment_after script segment steps).locks ≡ wait_graph (marks_in steps) segment }
{}
