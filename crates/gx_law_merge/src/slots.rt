//! Laws of the slots of resource groups, of histories that fit and of their merge.
ghost use Rattle.std.specs.Prelude.{◌≤◌, List};
ghost use Rattle.gx_law_merge.specs.Merge.{DoFit, IsMergeOf, history_of};
ghost use Rattle.gx_script.specs.declared.Script.{Script};
ghost use Rattle.gx_store.specs.Groups.{AlwaysKeepsSlots, AreStartsLet, BeginAsAsked};
ghost use Rattle.gx_store.specs.Language.{IsScript};
ghost use Rattle.gx_store.specs.Points.{marks_in};
ghost use Rattle.gx_store.specs.Refusals.{the_coordinator};
ghost use Rattle.gx_store.specs.Whole.{AreInsertsWhole};
ghost use Rattle.gx_store.specs.declared.run.Step.{Step as OneStep};

/// Where the coordinator has started lines as the groups let them by its own steps alone, they let these in the merge too.
pub fn merges_start_as_the_coordinator_does()
    ensures { (script : Script) (histories : List (List OneStep)) (steps : List OneStep) → 1 ≤ script.segments
        → DoFit script histories → IsMergeOf histories steps → AreStartsLet script (history_of histories the_coordinator) → AreStartsLet script steps }
{}

/// So no group has more open transactions than slots at any point of the merge, and the sessions of a group begin theirs in the order in
/// which they asked.
pub fn merges_keep_slots()
    ensures slots { (script : Script) (histories : List (List OneStep)) (steps : List OneStep) → IsScript script → AreInsertsWhole script.tables script.lines
        → DoFit script histories → IsMergeOf histories steps → AreStartsLet script (history_of histories the_coordinator) → AlwaysKeepsSlots script (marks_in steps) }
    ensures queued { (script : Script) (histories : List (List OneStep)) (steps : List OneStep) → IsScript script → AreInsertsWhole script.tables script.lines
        → DoFit script histories → IsMergeOf histories steps → AreStartsLet script (history_of histories the_coordinator) → BeginAsAsked script steps }
{}
