//! Laws of the runs that are reached: when they are over, and what then holds.
ghost use Rattle.std.specs.Prelude.{◌≡◌, ◌≤◌, ◌<◌, All, false, List, [], length};
ghost use Rattle.gx_ids.specs.declared.ids.SessionId.{SessionId as OneSession};
ghost use Rattle.gx_law_runs.specs.Endings.{IsFinished};
ghost use Rattle.gx_store.specs.Schedule.{is_any_unfinished, is_unfinished};
ghost use Rattle.gx_rules.specs.AtCoordinator.{is_unfinished_there};
ghost use Rattle.gx_store.specs.Language.{AreLinesNumbered};
ghost use Rattle.gx_law_runs.specs.Reached.{IsReached};
ghost use Rattle.gx_law_runs.specs.Replays.{coordinator_after};
ghost use Rattle.gx_script.specs.declared.Script.{Script};
ghost use Rattle.gx_store.specs.Marks.{answer_count};
ghost use Rattle.gx_store.specs.Points.{marks_in, starts_in};
ghost use Rattle.gx_store.specs.declared.run.Step.{Step as OneStep};

/// A session is unfinished by the steps where it is by what the coordinator holds.
pub fn unfinished_sessions_are_unfinished_there()
    ensures { (script : Script) (steps : List OneStep) (session : OneSession) → 1 ≤ script.segments → AreLinesNumbered [] script.lines → IsReached script steps
        → is_unfinished script steps session ≡ is_unfinished_there script (coordinator_after script steps) session }
{}

/// Where no session is unfinished every line was answered, every block is closed, and every transaction has ended.
pub fn finished_runs_are_whole()
    ensures { (script : Script) (steps : List OneStep) → 1 ≤ script.segments → AreLinesNumbered [] script.lines
        → All (λ line. line.session.0 < length script.sessions) script.lines → IsReached script steps
        → is_any_unfinished script steps ≡ false → IsFinished script (record { steps = steps }) }
{}

/// A session has no more answers than started lines, and those no more than there are steps.
pub fn lines_have_room()
    ensures { (script : Script) (steps : List OneStep) (session : OneSession) → 1 ≤ script.segments → IsReached script steps
        → (answer_count session (marks_in steps) ≤ starts_in session steps) × (starts_in session steps ≤ length steps) }
{}
