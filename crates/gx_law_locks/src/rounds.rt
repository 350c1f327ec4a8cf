//! Laws of the detector's rounds in every run, whatever the network loses, repeats, delays and reorders, and whichever appends fail.
ghost use Rattle.std.specs.Prelude.{◌≤◌, Bool, List, []};
ghost use Rattle.gx_law_order.specs.Runs.{steps_after};
ghost use Rattle.gx_rules.specs.Machine.{world_of};
ghost use Rattle.gx_rules.specs.System.{IsSystemRun};
ghost use Rattle.gx_script.specs.declared.Script.{Script};
ghost use Rattle.gx_store.specs.declared.event.Event.{Event as OneEvent};
ghost use Rattle.gx_store.specs.declared.run.Run.{Run as OneRun};
ghost use Rattle.gx_store.specs.Rounds.{AreRounds, Ends};
ghost use Rattle.gx_law_locks.specs.Held.{AreRoundsHeld};
ghost use Rattle.gx_law_locks.specs.Steps.{EachStep, SendsNoted, StepAsks};

/// What the nodes hold of rounds is what the steps tell.
pub fn what_nodes_hold_of_rounds()
    ensures { (script : Script) (events : List (OneEvent × Bool)) → 1 ≤ script.segments → AreRoundsHeld script (world_of script events) }
{}

/// One round runs at a time, numbered from 1, and each of its messages is sent for a cause: a round's beginning asks every segment
/// once, and only a segment whose graph is awaited is asked again.
pub fn rounds_ask_each_segment()
    ensures { (script : Script) (events : List (OneEvent × Bool)) → 1 ≤ script.segments → EachStep (StepAsks script) [] (steps_after script events) }
{}

/// A round ends once, in the step that receives the last of its graphs.
pub fn rounds_end_with_their_last_graph()
    ensures { (script : Script) (events : List (OneEvent × Bool)) → 1 ≤ script.segments → EachStep (Ends script) [] (steps_after script events) }
{}

/// A graph is sent as its segment has noted it, however often it is asked for.
pub fn graphs_are_sent_as_they_were_noted()
    ensures { (script : Script) (events : List (OneEvent × Bool)) → 1 ≤ script.segments → EachStep SendsNoted [] (steps_after script events) }
{}

/// Step by step, a run's rounds are as defined: who is asked and when, that a report tells just the waits that stand at its segment, once
/// a round, that graphs go out as noted, and when a round ends, with the verdict that follows from the coordinator's own graph of that
/// moment, each segment's first graph of the round, and who may still be cancelled.
pub fn rounds_are_as_defined()
    ensures { (script : Script) (events : List (OneEvent × Bool)) → 1 ≤ script.segments → AreRounds script [] (steps_after script events) }
{}

/// So are those of every run of the system of nodes.
pub fn rounds_of_every_system_run_are_as_defined()
    ensures { (script : Script) (run : OneRun) → 1 ≤ script.segments → IsSystemRun script run → AreRounds script [] run.steps }
{}
