//! Laws of the failures of journals.
ghost use Rattle.std.specs.Prelude.{◌≡◌, ◌≤◌, ◌&&◌, if◌then◌else◌, Bool, List, [], ◌∷◌, ◌++◌};
ghost use Rattle.gx_law_runs.specs.Failures.{failures_in};
ghost use Rattle.gx_ids.specs.declared.ids.Node.{Node as OneNode};
ghost use Rattle.gx_law_runs.specs.Reached.{IsReached};
ghost use Rattle.gx_law_runs.specs.Replays.{world_behind};
ghost use Rattle.gx_rules.specs.Machine.{happens, node_of};
ghost use Rattle.gx_script.specs.declared.Script.{Script};
ghost use Rattle.gx_store.specs.Journals.{is_same_node};
ghost use Rattle.gx_store.specs.declared.event.Event.{Event as OneEvent};
ghost use Rattle.gx_store.specs.declared.run.Step.{Step as OneStep};

/// A step behind a run that is reached has a failure of a node's journal at most once, and only where the append failed there.
pub fn failures_are_caused()
    ensures { (script : Script) (steps : List OneStep) (event : OneEvent) (fails : Bool) (step : OneStep) (node : OneNode) → 1 ≤ script.segments
        → IsReached script steps → (happens script (world_behind script steps) event fails).steps ≡ steps ++ step ∷ []
        → failures_in node step.marks ≤ (if is_same_node (node_of event) node && fails then 1 else 0) }
{}
