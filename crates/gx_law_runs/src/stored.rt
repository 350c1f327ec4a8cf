//! Laws of every run, whatever the network loses, repeats, delays and reorders, and whichever appends fail.
ghost use Rattle.std.specs.Prelude.{◌≤◌, Bool, List};
ghost use Rattle.gx_law_runs.specs.Stored.{AreRowsOfTables};
ghost use Rattle.gx_rules.specs.Machine.{world_of};
ghost use Rattle.gx_script.specs.declared.Script.{Script};
ghost use Rattle.gx_store.specs.declared.event.Event.{Event as OneEvent};

/// Each row that a segment has stored, whoever has written it and whatever became of that transaction, is gone or has a value of each of
/// its table's columns' kinds.
pub fn stored_rows_have_their_kinds()
    ensures { (script : Script) (events : List (OneEvent × Bool)) → 1 ≤ script.segments → AreRowsOfTables script (world_of script events) }
{}
