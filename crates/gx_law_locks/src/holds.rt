//! Laws of locks in every run, whatever the network loses, repeats, delays and reorders, and whichever appends fail.
ghost use Rattle.std.specs.Prelude.{◌≡◌, ◌≤◌, ◌++◌, Bool, List, []};
ghost use Rattle.gx_law_locks.specs.Lasting.{DoHoldsLast};
ghost use Rattle.gx_law_locks.specs.Late.{AreReleasesLate};
ghost use Rattle.gx_law_locks.specs.Marked.{AreLocksMarked, AreWaitsLegal};
ghost use Rattle.gx_law_locks.specs.Orders.{AreOrdersLocked};
ghost use Rattle.gx_law_locks.specs.Own.{DoHoldOwn, DoWritersHold};
ghost use Rattle.gx_law_locks.specs.Queue.{PassesNobody};
ghost use Rattle.gx_law_locks.specs.Waiting.{EachBehind, GetsWhatItWaitsFor, KeepsWhileWaiting, WaitsForEnd};
ghost use Rattle.gx_law_locks.specs.Writes.{AreWritesLocked};
ghost use Rattle.gx_law_order.specs.Runs.{steps_after};
ghost use Rattle.gx_rules.specs.Machine.{world_of};
ghost use Rattle.gx_script.specs.declared.Script.{Script};
ghost use Rattle.gx_store.specs.declared.event.Event.{Event as OneEvent};
ghost use Rattle.gx_store.specs.declared.mark.Mark.{Mark as OneMark};
ghost use Rattle.gx_store.specs.Locks.{AreExclusive, AreGranted};
ghost use Rattle.gx_store.specs.Points.{marks_in};

/// Each node's holds and waits are those that stand by the marks, in order.
pub fn locks_are_marked()
    ensures { (script : Script) (events : List (OneEvent × Bool)) → 1 ≤ script.segments → AreLocksMarked (world_of script events) }
{}

/// A lock is granted only where it meets nobody: neither a hold, nor a wait ahead of it that its own transaction's holds don't block.
pub fn locks_are_granted_where_they_meet_none()
    ensures { (script : Script) (events : List (OneEvent × Bool)) → 1 ≤ script.segments → AreGranted [] (marks_in (steps_after script events)) }
{}

/// At one node nobody is granted a lock while an earlier wait for a conflicting mode stands, unless it holds a mode on the object that
/// conflicts with the waiter's.
pub fn nobody_is_passed()
    ensures { (script : Script) (events : List (OneEvent × Bool)) → 1 ≤ script.segments → EachBehind PassesNobody [] (marks_in (steps_after script events)) }
{}

/// Whoever begins to wait at a node meets somebody there, who holds or waits ahead, and has no other wait there.
pub fn waits_meet_somebody()
    ensures { (script : Script) (events : List (OneEvent × Bool)) → 1 ≤ script.segments → AreWaitsLegal [] (marks_in (steps_after script events)) }
{}

/// At no point do two transactions hold conflicting modes on one object at one node.
pub fn locks_are_exclusive()
    ensures { (script : Script) (events : List (OneEvent × Bool)) (before later : List OneMark) → 1 ≤ script.segments → marks_in (steps_after script events) ≡ before ++ later → AreExclusive before }
{}

/// A lock is given back only by a transaction that has its Commit or Abort mark, but for a row's lock, and one on another
/// transaction's end, which a segment gives back at any time.
pub fn locks_are_given_back_at_the_end()
    ensures { (script : Script) (events : List (OneEvent × Bool)) → 1 ≤ script.segments → AreReleasesLate [] (marks_in (steps_after script events)) }
{}

/// At each point, whoever has no Commit or Abort mark holds all that it was granted, but for those.
pub fn who_runs_holds_what_it_was_granted()
    ensures { (script : Script) (events : List (OneEvent × Bool)) (before later : List OneMark) → 1 ≤ script.segments → marks_in (steps_after script events) ≡ before ++ later → DoHoldsLast before }
{}

/// From the first sending of a command to its transaction's end, the transaction holds at the coordinator the lock that the
/// command asks for at its segments: AccessShare of a SELECT's table, RowExclusive of an INSERT's, that and without a detector
/// Exclusive of an UPDATE's and a DELETE's, the mode that a LOCK TABLE names of its.
pub fn commands_go_out_with_their_lock()
    ensures { (script : Script) (events : List (OneEvent × Bool)) → 1 ≤ script.segments → AreOrdersLocked script (world_of script events) }
{}

/// Whoever writes a row, and has not ended, holds its table at the coordinator and at the row's node.
pub fn rows_are_written_with_the_lock()
    ensures { (script : Script) (events : List (OneEvent × Bool)) → 1 ≤ script.segments → AreWritesLocked script [] (marks_in (steps_after script events)) }
{}

/// Whoever has written a row in a step holds its own transaction at the row's node at the step's end.
pub fn writers_lock_themselves()
    ensures { (script : Script) (events : List (OneEvent × Bool)) → 1 ≤ script.segments → DoHoldOwn [] (steps_after script events) }
{}

/// From its first write at a segment until it has ended there, a transaction holds itself there.
pub fn writers_hold_until_they_end()
    ensures { (script : Script) (events : List (OneEvent × Bool)) → 1 ≤ script.segments → DoWritersHold (world_of script events) }
{}

/// While a transaction waits at a node it gives nothing back there, the wait itself included, unless it has aborted.
pub fn who_waits_gives_nothing_back()
    ensures { (script : Script) (events : List (OneEvent × Bool)) → 1 ≤ script.segments → EachBehind KeepsWhileWaiting [] (marks_in (steps_after script events)) }
{}

/// Nor is it granted anything there but what it waits for.
pub fn who_waits_is_granted_what_it_waits_for()
    ensures { (script : Script) (events : List (OneEvent × Bool)) → 1 ≤ script.segments → EachBehind GetsWhatItWaitsFor [] (marks_in (steps_after script events)) }
{}

/// Another transaction's end is waited for in mode Share alone, so that a hold on it for a moment is in nobody's way.
pub fn waits_for_ends_are_shared()
    ensures { (script : Script) (events : List (OneEvent × Bool)) → 1 ≤ script.segments → EachBehind WaitsForEnd [] (marks_in (steps_after script events)) }
{}
