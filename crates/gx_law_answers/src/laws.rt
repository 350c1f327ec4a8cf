//! Laws of every run, whatever the network loses, repeats, delays and reorders, and whichever appends fail.
ghost use Rattle.std.specs.Prelude.{◌≡◌, ◌≤◌, Bool, List, []};
ghost use Rattle.gx_law_answers.specs.Earned.{AreAnswersEarned};
ghost use Rattle.gx_law_answers.specs.OneAnswer.{AreAnswersOne};
ghost use Rattle.gx_store.specs.OneAnswer.{DoSegmentsAnswerOnce};
ghost use Rattle.gx_store.specs.Whole.{AreInsertsWhole};
ghost use Rattle.gx_meaning.specs.Answer.{ArePartsOf, answer_of};
ghost use Rattle.gx_law_order.specs.Finish.{AreSegmentsLegal};
ghost use Rattle.gx_store.specs.Language.{AreLinesNumbered};
ghost use Rattle.gx_rules.specs.Machine.{run_of, world_of};
ghost use Rattle.gx_meaning.specs.Merged.{merged_answer};
ghost use Rattle.gx_rules.specs.System.{IsSystemRun};
ghost use Rattle.gx_script.specs.declared.Script.{Script};
ghost use Rattle.gx_store.specs.Protocol.{DoStepsFollow};
ghost use Rattle.gx_law_reads.specs.Sights.{AreRowsOfAll};
ghost use Rattle.gx_store.specs.Points.{marks_in};
ghost use Rattle.gx_store.specs.Runs.{IsLegalHistory};
ghost use Rattle.gx_store.specs.View.{AreFinalFrom};
ghost use Rattle.std.specs.declared.alloc.Global.{Global as OneGlobal};
ghost use Rattle.std.specs.declared.vec.Vec.{Vec as OneVec};
ghost use Rattle.gx_store.specs.declared.event.Event.{Event as OneEvent};
ghost use Rattle.gx_store.specs.declared.run.Run.{Run as OneRun};
ghost use Rattle.gx_tree.specs.declared.part.Part.{Part as OnePart};
ghost use Rattle.gx_tree.specs.declared.query.Query.{Query as OneQuery};
ghost use Rattle.gx_tree.specs.declared.row.KeyedRow.{KeyedRow as OneRow};

/// From the parts of any division of the rows that a query keeps, in any order of the parts, the merged answer is the query's.
pub fn parts_give_the_answer()
    ensures { (query : OneQuery) (whole : List OneRow) (parts : List OnePart) → ArePartsOf query whole parts → merged_answer query parts ≡ answer_of query whole }
{}

/// Each answer to a command that a segment ever sent was earned: its rule gave it when the command came, as one that was new
/// there, or when its slice, which had come before and waited, got its lock, on its table or at a row; and what it says was so
/// then. A SELECT's is its part of what the command sees, or a fault of its condition on it; an UPDATE's or DELETE's counts the
/// rows that it has written there, with each that it selects written or skipped, or tells of its fault, or of a row that was
/// overtaken; all these unless the transaction had aborted. An INSERT's counts the rows that it was sent, all written.
pub fn every_answer_was_earned()
    ensures { (script : Script) (events : List (OneEvent × Bool)) → 1 ≤ script.segments → AreLinesNumbered [] script.lines → AreAnswersEarned script events }
{}

/// A segment gives one answer to a command: any two DONE or FAILED of it that the segment ever sends, to whomever and how often, are the
/// same, a FAILED's cause and a DONE's rows with it. So by what a trace shows, and the cause, it says one of the two, and one cause.
pub fn a_segment_gives_one_answer_to_a_command()
    ensures machine { (script : Script) (events : List (OneEvent × Bool)) → 1 ≤ script.segments → AreLinesNumbered [] script.lines → AreAnswersOne script (world_of script events).steps }
    ensures system { (script : Script) (run : OneRun) → 1 ≤ script.segments → AreLinesNumbered [] script.lines → IsSystemRun script run → AreAnswersOne script run.steps }
    ensures told { (script : Script) (run : OneRun) → 1 ≤ script.segments → AreLinesNumbered [] script.lines → IsSystemRun script run → DoSegmentsAnswerOnce script run.steps }
{}

/// The marks of a segment's step may stand there: its writes and skips, and each fault, of a condition on a row that the command
/// sees, or of an UPDATE's or DELETE's condition or SET list on a row's current image, while it is under way, or of a transaction
/// that has aborted.
pub fn segments_marks_are_legal()
    ensures { (script : Script) (events : List (OneEvent × Bool)) → 1 ≤ script.segments → AreLinesNumbered [] script.lines → AreSegmentsLegal script (world_of script events) }
{}

/// Every run is a legal history of one store without segments, whatever the network does and whichever appends fail: for scripts
/// whose INSERTs have tuples, each with a value for the distribution column, which no UPDATE sets.
pub fn every_run_is_a_legal_history()
    ensures { (script : Script) (events : List (OneEvent × Bool)) → 1 ≤ script.segments → AreLinesNumbered [] script.lines → AreInsertsWhole script.tables script.lines
        → IsLegalHistory script (run_of (world_of script events)) }
{}

/// So is every run of the system of nodes.
pub fn every_system_run_is_a_legal_history()
    ensures { (script : Script) (run : OneRun) → 1 ≤ script.segments → AreLinesNumbered [] script.lines → AreInsertsWhole script.tables script.lines
        → IsSystemRun script run → IsLegalHistory script run }
{}

/// The rows that the segments show to nobody's transaction, by a snapshot that is taken at the end of a run, are the final
/// tables.
pub fn segments_show_the_final_tables()
    ensures { (script : Script) (events : List (OneEvent × Bool)) (tables : List (OneVec OneRow OneGlobal)) → 1 ≤ script.segments
        → AreLinesNumbered [] script.lines → AreRowsOfAll 0 (world_of script events) tables
        → AreFinalFrom 0 (marks_in (world_of script events).steps) tables }
{}

/// Every run of the system of nodes follows the commit protocol.
pub fn every_system_run_follows_the_protocol()
    ensures { (script : Script) (run : OneRun) → 1 ≤ script.segments → IsSystemRun script run → DoStepsFollow script [] run.steps }
{}
