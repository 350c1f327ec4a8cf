//! Laws of every run, whatever the network loses, repeats, delays and reorders, and whichever appends fail.
ghost use Rattle.std.specs.Prelude.{◌≤◌, Bool, List, []};
ghost use Rattle.gx_law_order.specs.Runs.{steps_after};
ghost use Rattle.gx_script.specs.declared.Script.{Script};
ghost use Rattle.gx_store.specs.Asking.{AreAsked};
ghost use Rattle.gx_store.specs.Language.{AreLinesNumbered};
ghost use Rattle.gx_store.specs.declared.event.Event.{Event as OneEvent};

/// Whoever waits, and whoever is granted what it asks for, asks for a command. At the coordinator its line is under way, and it asks for
/// its table in its statement's mode. At a segment an EXEC of the command has come and neither DONE nor FAILED was sent of it; its line
/// is under way, or its transaction has aborted since; and it asks for its table in that mode, or, for an UPDATE or DELETE, at a row at
/// which another is in the way, for the row or for the other's end. That row it has selected and has still to do, unless its transaction
/// has aborted. What isn't asked for is a writer's lock on itself, behind its write. A row is written by such a command, with
/// its table's lock in that mode at the row's node, unless the transaction has aborted.
pub fn locks_are_asked_for()
    ensures { (script : Script) (events : List (OneEvent × Bool)) → 1 ≤ script.segments → AreLinesNumbered [] script.lines → AreAsked script [] (steps_after script events) }
{}
