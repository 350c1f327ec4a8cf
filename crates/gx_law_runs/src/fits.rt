//! Laws of every run, whatever the network loses, repeats, delays and reorders, and whichever appends fail.
ghost use Rattle.std.specs.Prelude.{Bool, List};
ghost use Rattle.gx_law_runs.specs.Fits.{DoLettersFit};
ghost use Rattle.gx_rules.specs.Machine.{world_of};
ghost use Rattle.gx_script.specs.declared.Script.{Script};
ghost use Rattle.gx_store.specs.Language.{IsScript};
ghost use Rattle.gx_store.specs.Whole.{HaveItems};
ghost use Rattle.gx_store.specs.declared.event.Event.{Event as OneEvent};

/// Commands, PREPARE and COMMIT that the coordinator has sent are let through where they come to, whenever that is. A command is, as long as
/// its transaction hasn't ended at the segment, in particular where it is new there: its horizon is above nobody who holds or waits for a
/// lock there, its slice is right for the script, it has a snapshot unless it reads nothing, and where it is new no slice waits before it.
/// PREPARE and COMMIT find no slice waiting. Of a transaction that has aborted none of this is said while a slice of it waits there, and
/// nothing of the other orders, nor of COLLECT. And the coordinator takes the part of a DONE that it awaits, and the graph of a segment that
/// it awaits. The script keeps the language, whose queries have items.
pub fn what_is_sent_fits()
    ensures { (script : Script) (events : List (OneEvent × Bool)) → IsScript script → HaveItems script.lines → DoLettersFit script (world_of script events) (world_of script events).sent }
{}
