//! Laws of every script that was read.
ghost use Rattle.std.specs.Prelude.{◌≡◌, ◌<◌, ◌≤◌, ◌^◌, ℕ, All, Bool, List, [], Ok, length};
ghost use Rattle.gx_store.specs.Whole.{AreInsertsWhole};
ghost use Rattle.gx_store.specs.Language.{AreLinesNumbered};
ghost use Rattle.gx_rules.specs.Machine.{run_of, world_of};
ghost use Rattle.gx_rules.specs.System.{IsSystemRun};
ghost use Rattle.gx_script.specs.declared.Script.{Script};
ghost use Rattle.gx_store.specs.Language.{HasFaultsOnce, IsScript};
ghost use Rattle.gx_sql.specs.Script.{Reads};
ghost use Rattle.gx_store.specs.Limits.{IsBoundedLine, HaveTuplesTo};
ghost use Rattle.gx_store.specs.Runs.{IsLegalHistory};
ghost use Rattle.gx_store.specs.declared.event.Event.{Event as OneEvent};
ghost use Rattle.gx_store.specs.declared.run.Run.{Run as OneRun};

/// A script of the language has a segment, and its lines are numbered for each session from 1.
pub fn scripts_have_segments_and_numbers()
    ensures { (script : Script) → IsScript script → (1 ≤ script.segments) × AreLinesNumbered [] script.lines }
{}

/// A script that was read keeps the rules and the limits of the language. It has fewer than 2^32 bytes, and so each INSERT fewer
/// tuples.
pub fn scripts_keep_the_language()
    ensures { (bytes : List ℕ) (script : Script) → length bytes < 2 ^ 32 → Reads bytes (Ok script) → IsScript script }
{}

/// However many bytes it has, each of its lines keeps the limits.
pub fn lines_keep_the_limits()
    ensures { (bytes : List ℕ) (script : Script) → Reads bytes (Ok script) → All IsBoundedLine script.lines }
{}

/// A script that was read has no fault of a link twice.
pub fn faults_stand_once()
    ensures { (bytes : List ℕ) (script : Script) → Reads bytes (Ok script) → HasFaultsOnce script }
{}

/// Each INSERT of a script that was read has a tuple, and each of its tuples a value for the distribution column, which no UPDATE sets.
pub fn inserts_are_whole()
    ensures { (bytes : List ℕ) (script : Script) → Reads bytes (Ok script) → AreInsertsWhole script.tables script.lines }
{}

/// No INSERT of a script that was read has more tuples than the script has bytes.
pub fn inserts_have_no_more_tuples_than_bytes()
    ensures { (bytes : List ℕ) (script : Script) → Reads bytes (Ok script) → HaveTuplesTo (length bytes) script.lines }
{}

/// Every run of a script that was read is a legal history of one store without segments, whatever the network does and
/// whichever appends fail.
pub fn every_run_of_a_script_is_a_legal_history()
    ensures { (bytes : List ℕ) (script : Script) (events : List (OneEvent × Bool)) → Reads bytes (Ok script) → IsLegalHistory script (run_of (world_of script events)) }
{}

/// So is every run of the system of nodes.
pub fn every_system_run_of_a_script_is_a_legal_history()
    ensures { (bytes : List ℕ) (script : Script) (run : OneRun) → Reads bytes (Ok script) → IsSystemRun script run → IsLegalHistory script run }
{}
