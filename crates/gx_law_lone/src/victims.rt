//! Where a round is all that is left to choose, it finds victims.
ghost use Rattle.std.specs.Prelude.{◌≡◌, ◌≤◌, ◌<◌, ◌∷◌, ℕ, Bool, List, [], All, length};
ghost use Rattle.gx_law_lone.specs.Deadlock.{deadlocked, finds_nothing, lets_all, names_the_younger, two_lockers};
ghost use Rattle.gx_law_lone.specs.Victims.{AreLet, DoLoneRoundsFindVictims, HoldsUpOpenings};
ghost use Rattle.gx_law_runs.specs.Reached.{IsReached};
ghost use Rattle.gx_script.specs.declared.Script.{Script};
ghost use Rattle.gx_store.specs.Groups.{lets};
ghost use Rattle.gx_store.specs.Language.{AreLinesNumbered, IsScript};
ghost use Rattle.gx_store.specs.Whole.{AreInsertsWhole};
ghost use Rattle.gx_store.specs.Schedule.{enabled};
ghost use Rattle.gx_store.specs.declared.event.Event.{Event as OneEvent};
ghost use Rattle.gx_store.specs.declared.event.Event.TheVariants as OneEvents;
ghost use Rattle.gx_store.specs.declared.run.Step.{Step as OneStep};

/// In a run whose steps do what was enabled, and not held up, where a round began while nothing else was left to choose, each step does
/// something of that round up to its recheck, and that names victims. Whoever drives may hold up lines that open a transaction, as a
/// group without a free slot does, if it holds up nothing else.
pub fn lone_rounds_find_victims()
    ensures { (script : Script) (lets : List OneStep → OneEvent → Bool) (steps : List OneStep) → 1 ≤ script.segments → AreLinesNumbered [] script.lines
        → All (λ line. line.session.0 < length script.sessions) script.lines → AreInsertsWhole script.tables script.lines
        → HoldsUpOpenings script lets → IsReached script steps → AreLet script lets [] steps → DoLoneRoundsFindVictims script lets [] steps }
{}

/// Of a script that keeps the language's rules the slots of its resource groups hold up nothing but opening lines, each until a step that
/// tells of a transaction or a session: whoever asks for a slot is about to open a transaction.
pub fn groups_hold_up_openings()
    ensures { (script : Script) → IsScript script → AreInsertsWhole script.tables script.lines → HoldsUpOpenings script (lets script) }
{}

/// So in a run in which each event is one that was enabled and that the groups let, a lone round finds victims.
pub fn lone_rounds_find_victims_beside_groups()
    ensures { (script : Script) (steps : List OneStep) → IsScript script → AreInsertsWhole script.tables script.lines
        → IsReached script steps → AreLet script (lets script) [] steps → DoLoneRoundsFindVictims script (lets script) [] steps }
{}

/// Where two sessions wait for each other at the coordinator and a round is all that is left, one that finds nothing is refused by that, and
/// one that names the younger isn't.
pub fn a_lone_round_that_finds_nothing_is_refused()
    ensures alone { (script : Script) (one other : List ℕ) → enabled (two_lockers script one other) deadlocked ≡ OneEvents.Round ∷ [] }
    ensures refused { (script : Script) (one other : List ℕ) → DoLoneRoundsFindVictims (two_lockers script one other) lets_all [] finds_nothing → ⊥ }
    ensures victims { (script : Script) (one other : List ℕ) → DoLoneRoundsFindVictims (two_lockers script one other) lets_all [] names_the_younger }
{}
