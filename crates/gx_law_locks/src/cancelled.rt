//! Laws of every run, whatever the network loses, repeats, delays and reorders, and whichever appends fail.
ghost use Rattle.std.specs.Prelude.{◌≤◌, Bool, List, []};
ghost use Rattle.gx_law_order.specs.Runs.{steps_after};
ghost use Rattle.gx_law_order.specs.Finish.{AreVerdictsLegal};
ghost use Rattle.gx_law_locks.specs.Legal.{AreRoundsLegal};
ghost use Rattle.gx_script.specs.declared.Script.{Script};
ghost use Rattle.gx_store.specs.Cancelled.{AreNamedRightly, DoStuckStand, EachRecheck};
ghost use Rattle.gx_store.specs.declared.event.Event.{Event as OneEvent};

/// Whoever a round names is aborted in the step that ends the round, and its session's line is refused.
pub fn who_is_named_is_cancelled()
    ensures { (script : Script) (events : List (OneEvent × Bool)) → 1 ≤ script.segments → AreVerdictsLegal [] (steps_after script events) }
{}

/// Where a round names somebody, each wait of its graphs that is stuck, at whatever moment it was reported, stands when it is decided.
pub fn stuck_waits_stand()
    ensures { (script : Script) (events : List (OneEvent × Bool)) → 1 ≤ script.segments → EachRecheck (DoStuckStand script) [] (steps_after script events) }
{}

/// Whoever a round names is the youngest of a core that is blocked then, and was when the step before ended: each of its members
/// is waited for by another, none can finish however the others go on, and nobody named before is in it.
pub fn victims_are_named_rightly()
    ensures { (script : Script) (events : List (OneEvent × Bool)) → 1 ≤ script.segments → EachRecheck (AreNamedRightly script) [] (steps_after script events) }
{}

/// The rounds of a run are as they are defined, their stuck waits stand, and whoever they name is named rightly.
pub fn rounds_are_legal()
    ensures { (script : Script) (events : List (OneEvent × Bool)) → 1 ≤ script.segments → AreRoundsLegal script (steps_after script events) }
{}
