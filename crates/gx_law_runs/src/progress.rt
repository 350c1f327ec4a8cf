//! Laws of every run, whatever the network loses, repeats, delays and reorders, and whichever appends fail.
ghost use Rattle.std.specs.Prelude.{◌≡◌, ◌≤◌, ◌<◌, ◌⊎◌, Bool, true, false, ℕ, option_map, is_some, List, [], length};
ghost use Rattle.std.specs.List.{list_all};
ghost use Rattle.std.specs.Option.{option_to_list};
ghost use Rattle.gx_ids.specs.declared.ids.SessionId.{SessionId as OneSession};
ghost use Rattle.gx_store.specs.Whole.{AreInsertsWhole};
ghost use Rattle.gx_store.specs.Language.{AreLinesNumbered};
ghost use Rattle.gx_locks.specs.Locks.{next_ready, wait_of};
ghost use Rattle.gx_law_runs.specs.Awaiting.{IsAwaiting, IsBlocked};
ghost use Rattle.gx_law_runs.specs.Reached.{IsReached};
ghost use Rattle.gx_law_runs.specs.Replays.{coordinator_after, segment_after, world_behind};
ghost use Rattle.gx_rules.specs.AtCoordinator.{is_idle, is_unfinished_there};
ghost use Rattle.gx_rules.specs.Coordinators.{session_of};
ghost use Rattle.gx_rules.specs.Machine.{world_of};
ghost use Rattle.gx_script.specs.declared.Script.{Script};
ghost use Rattle.gx_store.specs.Schedule.{enabled, is_round, resumptions};
ghost use Rattle.gx_store.specs.Points.{marks_in};
ghost use Rattle.gx_store.specs.Refusals.{the_coordinator};
ghost use Rattle.gx_store.specs.declared.event.Event.TheVariants.{Resume};
ghost use Rattle.gx_store.specs.declared.event.Event.{Event as OneEvent};
ghost use Rattle.gx_store.specs.declared.run.Step.{Step as OneStep};

/// A session that has something left to do at the coordinator has a line under way whose answers are awaited, or which waits for a
/// lock, or something of it is enabled. So where nothing but a round of the detector is enabled, each unfinished session waits for a
/// lock, at the coordinator or at a segment, that meets somebody there, who holds or waits ahead. That holds of scripts whose INSERTs have
/// tuples: one without goes to no segment, and is never answered.
pub fn unfinished_runs_go_on_unless_blocked()
    ensures { (script : Script) (steps : List OneStep) (session : OneSession) → 1 ≤ script.segments → AreLinesNumbered [] script.lines
        → AreInsertsWhole script.tables script.lines → IsReached script steps
        → session.0 < length script.sessions → is_unfinished_there script (coordinator_after script steps) session ≡ true → list_all is_round (enabled script steps) ≡ true
        → IsBlocked script (world_behind script steps) session }
{}

/// Where nothing at all is enabled and a session is unfinished, the script has no detector: with one, a round may begin, or else
/// a graph of the round that runs is asked for again.
pub fn stuck_runs_have_no_detector()
    ensures { (script : Script) (steps : List OneStep) (session : OneSession) → 1 ≤ script.segments
        → AreInsertsWhole script.tables script.lines → IsReached script steps
        → session.0 < length script.sessions → is_unfinished_there script (coordinator_after script steps) session ≡ true → enabled script steps ≡ []
        → script.detector ≡ false }
{}

/// A session that isn't idle awaits an answer, of some segment for its transaction, or waits for a lock at the coordinator.
pub fn busy_sessions_await_an_answer_or_a_lock()
    ensures { (script : Script) (events : List (OneEvent × Bool)) (session : OneSession) → 1 ≤ script.segments → AreInsertsWhole script.tables script.lines
        → is_idle (session_of (world_of script events).coord session) ≡ false
        → IsAwaiting script (world_of script events).coord session ⊎ (is_some (wait_of (world_of script events).coord.locks (session_of (world_of script events).coord session).transaction) ≡ true) }
{}

/// Who resumes at the coordinator is the least of those whose waits in its locks are ready.
pub fn the_least_ready_wait_resumes_at_the_coordinator()
    ensures { (script : Script) (steps : List OneStep) → 1 ≤ script.segments → IsReached script steps
        → resumptions (marks_in steps) the_coordinator ≡ option_to_list (option_map (Resume the_coordinator) (next_ready (coordinator_after script steps).locks)) }
{}

/// And so it is at a segment.
pub fn the_least_ready_wait_resumes_at_a_segment()
    ensures { (script : Script) (steps : List OneStep) (i : ℕ) → 1 ≤ script.segments → IsReached script steps → 1 ≤ i
        → resumptions (marks_in steps) (record { 0 = i })
        ≡ option_to_list (option_map (Resume (record { 0 = i })) (next_ready (segment_after script (record { 0 = i }) steps).locks)) }
{}
