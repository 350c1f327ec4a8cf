//! Laws of every run, whatever the network loses, repeats, delays and reorders, and whichever appends fail.
ghost use Rattle.std.specs.Prelude.{◌≤◌, Bool, List, []};
ghost use Rattle.gx_law_writes.specs.Commands.{AreAnswersHeld, AreReadsHeld, DoCommandsHold};
ghost use Rattle.gx_law_writes.specs.Legal.{AreLocksLegal};
ghost use Rattle.gx_law_locks.specs.Writes.{AreWritesUnderLock};
ghost use Rattle.gx_law_order.specs.Runs.{steps_after};
ghost use Rattle.gx_script.specs.declared.Script.{Script};
ghost use Rattle.gx_store.specs.declared.event.Event.{Event as OneEvent};
ghost use Rattle.gx_store.specs.Language.{AreLinesNumbered};
ghost use Rattle.gx_store.specs.Points.{marks_in};

/// Whoever writes a row holds its table at the coordinator and at the row's node, unless it has aborted.
pub fn rows_are_written_with_the_lock_unless_aborted()
    ensures { (script : Script) (events : List (OneEvent × Bool)) → 1 ≤ script.segments → AreLinesNumbered [] script.lines → AreWritesUnderLock script [] (marks_in (steps_after script events)) }
{}

/// Locks are legal, by the definition whole and by what it doesn't say. All are kept to their transaction's end, but for those on
/// rows, and on other transactions' ends, which a segment gives back at any time.
pub fn locks_are_legal()
    ensures { (script : Script) (events : List (OneEvent × Bool)) → 1 ≤ script.segments → AreLinesNumbered [] script.lines → AreLocksLegal script (steps_after script events) }
{}

/// A command under way holds its table at the coordinator, or waits for it there and hasn't gone out: behind each step, and in each
/// step that starts no line of its session, up to its own answer. AccessShare is what a SELECT holds, RowExclusive what an INSERT
/// holds, RowExclusive or without the detector Exclusive what an UPDATE or DELETE holds, the mode that it names what a LOCK TABLE
/// holds.
pub fn commands_hold_their_tables_until_answered()
    ensures { (script : Script) (events : List (OneEvent × Bool)) → 1 ≤ script.segments → DoCommandsHold script (steps_after script events) }
{}

/// A command that succeeds holds its table at the coordinator at the point of its answer.
pub fn answered_commands_hold_their_tables()
    ensures { (script : Script) (events : List (OneEvent × Bool)) → 1 ≤ script.segments → AreAnswersHeld script [] (steps_after script events) }
{}

/// From its own snapshot, or from its first sending, to its answer, a command holds its table at the coordinator, at every point of
/// the run: a SELECT AccessShare, an INSERT RowExclusive, an UPDATE or DELETE RowExclusive or without the detector Exclusive, a LOCK
/// TABLE the mode that it names.
pub fn commands_hold_their_tables_while_they_read()
    ensures { (script : Script) (events : List (OneEvent × Bool)) → 1 ≤ script.segments → AreReadsHeld script [] (steps_after script events) }
{}
