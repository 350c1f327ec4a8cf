//! Laws of every run, whatever the network loses, repeats, delays and reorders, and whichever appends fail.
ghost use Rattle.std.specs.Prelude.{◌≡◌, ◌≤◌, ◌++◌, Bool, List, []};
ghost use Rattle.gx_law_locks.specs.Blocked.{DoStayBlocked};
ghost use Rattle.gx_law_locks.specs.Committing.{CommitsUnlessWaiting};
ghost use Rattle.gx_law_locks.specs.Reports.{IsBlockedForGood, IsStuckBlocked};
ghost use Rattle.gx_law_locks.specs.Waiting.{EachBehind};
ghost use Rattle.gx_law_order.specs.Runs.{steps_after};
ghost use Rattle.gx_script.specs.declared.Script.{Script};
ghost use Rattle.gx_store.specs.declared.event.Event.{Event as OneEvent};
ghost use Rattle.gx_store.specs.declared.mark.Mark.{Mark as OneMark};
ghost use Rattle.gx_store.specs.Points.{marks_in};

/// A transaction that waits somewhere doesn't commit, and isn't asked to prepare or to commit.
pub fn who_waits_is_not_committing()
    ensures { (script : Script) (events : List (OneEvent × Bool)) → 1 ≤ script.segments → EachBehind CommitsUnlessWaiting [] (marks_in (steps_after script events)) }
{}

/// A set of waits that is blocked at a point of a run is blocked at each later one, and nobody of it has committed by then, until
/// one of them aborts.
pub fn blocked_stays_blocked()
    ensures { (script : Script) (events : List (OneEvent × Bool)) → 1 ≤ script.segments → DoStayBlocked (marks_in (steps_after script events)) }
{}

/// Where each node has reported its edges at some earlier point of a run, whatever point that was, a closed set of edges of all
/// reports is blocked now, if whoever is stuck by the reports is active now.
pub fn what_is_stuck_by_reports_is_blocked()
    ensures { (script : Script) (events : List (OneEvent × Bool)) (before later : List OneMark) → 1 ≤ script.segments → marks_in (steps_after script events) ≡ before ++ later → IsStuckBlocked before }
{}

/// Nobody of a blocked set can finish, whatever others do.
pub fn who_is_blocked_cannot_finish()
    ensures { (marks : List OneMark) → IsBlockedForGood marks }
{}
