//! Laws of every run, whatever the network loses, repeats, delays and reorders, and whichever appends fail.
ghost use Rattle.std.specs.Prelude.{◌≤◌, Bool, List};
ghost use Rattle.gx_law_writes.specs.Ended.{HaveWritersEnded};
ghost use Rattle.gx_rules.specs.Machine.{world_of};
ghost use Rattle.gx_script.specs.declared.Script.{Script};
ghost use Rattle.gx_store.specs.declared.event.Event.{Event as OneEvent};

/// Whoever has written at a segment and holds no lock on itself there has ended. So a command may go on at a row whose writer holds
/// none: the row's current version there is then its current write.
pub fn writers_without_their_lock_have_ended()
    ensures { (script : Script) (events : List (OneEvent × Bool)) → 1 ≤ script.segments → HaveWritersEnded (world_of script events) }
{}
