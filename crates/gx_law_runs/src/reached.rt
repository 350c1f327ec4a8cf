//! Laws of the runs that the machine reaches.
ghost use Rattle.std.specs.Prelude.{◌≡◌, ◌≤◌, Bool, true, List, [], ◌∷◌, ◌++◌};
ghost use Rattle.std.specs.List.{list_all};
ghost use Rattle.gx_law_runs.specs.Reached.{HasRoomAfter, IsReached};
ghost use Rattle.gx_law_runs.specs.Replays.{AreReplayed, IsNextAtCoordinator, IsNextAtSegment, is_admitted, world_behind};
ghost use Rattle.gx_rules.specs.Machine.{happens, world_of};
ghost use Rattle.gx_rules.specs.System.{IsSystemRun};
ghost use Rattle.gx_script.specs.declared.Script.{Script};
ghost use Rattle.gx_store.specs.Ordered.{AreOrdered};
ghost use Rattle.gx_store.specs.Protocol.{DoStepsFollow};
ghost use Rattle.gx_store.specs.Schedule.{enabled};
ghost use Rattle.gx_store.specs.declared.event.Event.{Event as OneEvent};
ghost use Rattle.gx_store.specs.declared.run.Run.{Run as OneRun};
ghost use Rattle.gx_store.specs.declared.run.Step.{Step as OneStep};

/// A run without a step is reached.
pub fn new_runs_are_reached()
    ensures { (script : Script) → IsReached script [] }
{}

/// And a run that is reached is so with a step of the coordinator more, done by its rule on what the steps tell.
pub fn coordinators_steps_are_reached()
    ensures { (script : Script) (steps : List OneStep) (step : OneStep) → IsReached script steps → IsNextAtCoordinator script steps step → IsReached script (steps ++ step ∷ []) }
{}

/// So it is with a step of a segment more.
pub fn segments_steps_are_reached()
    ensures { (script : Script) (steps : List OneStep) (step : OneStep) → IsReached script steps → IsNextAtSegment script steps step → IsReached script (steps ++ step ∷ []) }
{}

/// So it is with any event more that is admitted, whether its append fails or not.
pub fn events_are_reached()
    ensures { (script : Script) (steps : List OneStep) (event : OneEvent) (fails : Bool) → IsReached script steps → IsReached script (happens script (world_behind script steps) event fails).steps }
{}

/// Every run of the system of nodes is reached.
pub fn system_runs_are_reached()
    ensures { (script : Script) (run : OneRun) → IsSystemRun script run → IsReached script run.steps }
{}

/// After a run that is reached the machine's nodes hold what its steps tell.
pub fn reached_runs_are_replayed()
    ensures { (script : Script) (steps : List OneStep) (is : IsReached script steps) → AreReplayed script steps (world_of script is.events) }
{}

/// Each event that is enabled there is admitted, whoever waits.
pub fn enabled_events_are_admitted()
    ensures { (script : Script) (steps : List OneStep) → 1 ≤ script.segments → IsReached script steps → list_all (is_admitted script steps) (enabled script steps) ≡ true }
{}

/// Counts have room.
pub fn reached_counts_have_room()
    ensures { (script : Script) (steps : List OneStep) → 1 ≤ script.segments → IsReached script steps → HasRoomAfter script steps }
{}

/// A run that is reached is ordered.
pub fn reached_runs_are_ordered()
    ensures { (script : Script) (steps : List OneStep) → 1 ≤ script.segments → IsReached script steps → AreOrdered script [] steps }
{}

/// It is a run of the system of nodes.
pub fn reached_runs_are_system_runs()
    ensures { (script : Script) (steps : List OneStep) → 1 ≤ script.segments → IsReached script steps → IsSystemRun script (record { steps = steps }) }
{}

/// It follows the commit protocol.
pub fn reached_runs_follow_the_protocol()
    ensures { (script : Script) (steps : List OneStep) → 1 ≤ script.segments → IsReached script steps → DoStepsFollow script [] steps }
{}
