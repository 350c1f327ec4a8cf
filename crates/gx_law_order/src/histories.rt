//! Laws of sessions in every run, whatever the network loses, repeats, delays and reorders, and whichever appends fail.
ghost use Rattle.std.specs.Prelude.{◌≤◌, Bool, List, []};
ghost use Rattle.gx_law_order.specs.Alive.{AreOrdersAlive, HaveOrdersRun};
ghost use Rattle.gx_law_order.specs.Finish.{IsRestShown};
ghost use Rattle.gx_law_order.specs.Orders.{AreOrdersOf};
ghost use Rattle.gx_store.specs.Language.{AreLinesNumbered};
ghost use Rattle.gx_law_order.specs.Rest.{AreEventsLegal, AreRestLegal};
ghost use Rattle.gx_law_order.specs.Standing.{AreSessions};
ghost use Rattle.gx_law_order.specs.Runs.{steps_after};
ghost use Rattle.gx_rules.specs.Machine.{run_of, world_of};
ghost use Rattle.gx_script.specs.declared.Script.{Script};
ghost use Rattle.gx_store.specs.Runs.{IsLegalHistory};
ghost use Rattle.gx_store.specs.declared.event.Event.{Event as OneEvent};

/// The marks tell where each session stands at the coordinator: how many of its lines were started and answered, its block,
/// its transaction, and its line under way, which has gone out or waits for its table's lock. What waits has no number, snapshot
/// or pieces yet; its number will be the next.
pub fn sessions_stand()
    ensures { (script : Script) (events : List (OneEvent × Bool)) → 1 ≤ script.segments → AreSessions script (world_of script events) }
{}

/// A session's line starts once the line before is answered, and the session is ended once no line is left.
pub fn events_are_legal()
    ensures { (script : Script) (events : List (OneEvent × Bool)) → 1 ≤ script.segments → AreEventsLegal script [] (steps_after script events) }
{}

/// A run is a legal history if what segments do of rows, what they refuse, and what the answers of commands that succeeded
/// say are so.
pub fn history_is_legal_with_the_rest()
    ensures { (script : Script) (events : List (OneEvent × Bool)) → 1 ≤ script.segments → AreRestLegal script [] (steps_after script events) → IsLegalHistory script (run_of (world_of script events)) }
{}

/// Every run is a legal history if this is shown: of the commands that were gathered what their answers say, of those that a
/// segment failed the cause, of the marks of segments that they may stand there, and of rechecks that whom they name is cancelled.
pub fn histories_are_legal_once_shown()
    ensures { (script : Script) (events : List (OneEvent × Bool)) → 1 ≤ script.segments → IsRestShown script → IsLegalHistory script (run_of (world_of script events)) }
{}

/// Each EXEC that was ever sent is of a statement of its transaction's session: the one that the command's number says. It
/// has the transaction's level, the node's piece of the statement's plan, and a snapshot that was taken for the command, or
/// none where it is a LOCK TABLE.
pub fn orders_are_of_their_lines()
    ensures { (script : Script) (events : List (OneEvent × Bool)) → 1 ≤ script.segments → AreLinesNumbered [] script.lines → AreOrdersOf script (world_of script events) }
{}

/// The command of an EXEC that was ever sent is under way, or its node's answer to it was received, or its transaction has
/// aborted.
pub fn orders_are_under_way()
    ensures { (script : Script) (events : List (OneEvent × Bool)) → 1 ≤ script.segments → AreOrdersAlive script (world_of script events) }
{}

/// The command of an EXEC that was ever sent was under way at an earlier point of the run.
pub fn orders_were_under_way()
    ensures { (script : Script) (events : List (OneEvent × Bool)) → 1 ≤ script.segments → HaveOrdersRun script (world_of script events) }
{}
