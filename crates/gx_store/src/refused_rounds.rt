//! Rounds of the detector that are refused, each for the one thing that is wrong in it.
ghost use Rattle.std.specs.Prelude.{[], ◌∷◌};
ghost use Rattle.gx_store.specs.RefusedRounds.{asked_by_a_start, begins, ends_twice, never_ends, nobody_asked, nothing_reported, reported_twice, two_at_once, unwatched, watched};
ghost use Rattle.gx_store.specs.Rounds.{AreRounds};
ghost use Rattle.gx_script.specs.declared.Script.{Script};

/// A segment where a transaction waits reports that nobody does.
pub fn empty_report_of_a_wait()
    ensures { (script : Script) → AreRounds (watched script) [] nothing_reported → ⊥ }
{}

/// A round begins, and no segment is asked.
pub fn round_that_asks_nobody()
    ensures { (script : Script) → AreRounds (watched script) [] nobody_asked → ⊥ }
{}

/// A round begins though the detector is off.
pub fn round_without_a_detector()
    ensures { (script : Script) → AreRounds (unwatched script) [] (begins 1 ∷ []) → ⊥ }
{}

/// A round begins while another runs.
pub fn two_rounds_at_once()
    ensures { (script : Script) → AreRounds (watched script) [] two_at_once → ⊥ }
{}

/// A segment is asked for its graph by a step that begins no round and sends nothing again.
pub fn graph_asked_by_a_start()
    ensures { (script : Script) → AreRounds (watched script) [] asked_by_a_start → ⊥ }
{}

/// A segment takes its graph twice for one round.
pub fn two_reports_for_a_round()
    ensures { (script : Script) → AreRounds (watched script) [] reported_twice → ⊥ }
{}

/// Every segment's graph has come, and the round goes on.
pub fn round_that_never_ends()
    ensures { (script : Script) → AreRounds (watched script) [] never_ends → ⊥ }
{}

/// A graph that comes again ends its round once more.
pub fn round_that_ends_twice()
    ensures { (script : Script) → AreRounds (watched script) [] ends_twice → ⊥ }
{}
