//! A run that can't go on has no detector.
ghost use Rattle.std.specs.Prelude.{◌≡◌, ◌<◌, true, false, List, [], length};
ghost use Rattle.gx_ids.specs.declared.ids.SessionId.{SessionId as OneSession};
ghost use Rattle.gx_law_lone.specs.Victims.{AreLet};
ghost use Rattle.gx_law_runs.specs.Reached.{IsReached};
ghost use Rattle.gx_law_runs.specs.Replays.{coordinator_after};
ghost use Rattle.gx_rules.specs.AtCoordinator.{is_unfinished_there};
ghost use Rattle.gx_script.specs.declared.Script.{Script};
ghost use Rattle.gx_store.specs.Groups.{enabled_in, lets};
ghost use Rattle.gx_store.specs.Language.{IsScript};
ghost use Rattle.gx_store.specs.Whole.{AreInsertsWhole};
ghost use Rattle.gx_store.specs.declared.run.Step.{Step as OneStep};

/// Where a session is unfinished and the groups let nothing of what is enabled, there is no detector: of a group that holds somebody up a
/// transaction is open, which waits for a lock.
pub fn runs_stuck_beside_groups_have_no_detector()
    ensures { (script : Script) (steps : List OneStep) (session : OneSession) → IsScript script → AreInsertsWhole script.tables script.lines
        → IsReached script steps → AreLet script (lets script) [] steps → session.0 < length script.sessions
        → is_unfinished_there script (coordinator_after script steps) session ≡ true → enabled_in script steps ≡ [] → script.detector ≡ false }
{}
