//! What is printed of small runs.
ghost use Rattle.std.specs.Prelude.{◌≡◌};
ghost use Rattle.gx_report.specs.TraceText.{trace_of};
ghost use Rattle.gx_report.specs.Worked.{a_script, many_events_run, many_events_trace, smallest_run, smallest_trace, stuck_graphs, stuck_graphs_lines};
ghost use Rattle.gx_report.specs.Stops.{stuck_lines};

/// A block that is begun and rolled back.
pub fn begin_and_rollback_are_traced()
    ensures { trace_of a_script smallest_run ≡ smallest_trace }
{}

/// Events and marks of the other kinds, but for snapshots.
pub fn all_kinds_are_traced()
    ensures { trace_of a_script many_events_run ≡ many_events_trace }
{}

/// The edges of a run that is stuck: by node, by waiter, by holder, and solid before dotted.
pub fn stuck_edges_are_told()
    ensures { stuck_lines stuck_graphs ≡ stuck_graphs_lines }
{}
