//! Laws of every run, whatever the network loses, repeats, delays and reorders, and whichever appends fail.
ghost use Rattle.std.specs.Prelude.{◌≡◌, ◌≤◌, Bool, List, [], Ok};
ghost use Rattle.gx_store.specs.Language.{AreLinesNumbered};
ghost use Rattle.gx_ids.specs.declared.ids.Cid.{Cid as OneCid};
ghost use Rattle.gx_ids.specs.declared.ids.Gxid.{Gxid as OneGxid};
ghost use Rattle.gx_law_order.specs.Runs.{steps_after};
ghost use Rattle.gx_law_order.specs.Finish.{AreVerdictsLegal};
ghost use Rattle.gx_meaning.specs.Constants.{rows_of};
ghost use Rattle.gx_rules.specs.Machine.{after, run_of, world_of};
ghost use Rattle.gx_script.specs.declared.Script.{Script};
ghost use Rattle.gx_store.specs.declared.event.Event.{Event as OneEvent};
ghost use Rattle.gx_store.specs.Points.{marks_in};
ghost use Rattle.gx_store.specs.Runs.{IsLegalHistory};
ghost use Rattle.gx_store.specs.Stands.{DoRowsStand};
ghost use Rattle.gx_tree.specs.declared.expr.Expr.{Expr as OneExpr};
ghost use Rattle.gx_tree.specs.declared.row.KeyedRow.{KeyedRow as OneRow};
ghost use Rattle.gx_law_writes.specs.Changes.{AreLaterTurnsTrue, AreNewTurnsTrue, DoCountsStay};
ghost use Rattle.gx_law_writes.specs.Homes.{AreRowsHome};
ghost use Rattle.gx_law_writes.specs.Inserting.{AreInserting};
ghost use Rattle.gx_law_writes.specs.Inserts.{AreInsertsTold};
ghost use Rattle.gx_law_writes.specs.Left.{AreLeftLegal};
ghost use Rattle.gx_law_writes.specs.Rows.{ArePiecesOf, AreRowsOf};
ghost use Rattle.gx_law_writes.specs.Writes.{AreWritesLegal};

/// An INSERT's rows are those of its tuples, in their order, with ordinals from 1.
pub fn rows_are_of_their_tuples()
    ensures { (g : OneGxid) (c : OneCid) (tuples : List (List OneExpr)) (rows : List OneRow) → rows_of g c tuples ≡ Ok rows → AreRowsOf g c 1 tuples rows }
{}

/// An EXEC of an INSERT has the rows of its statement that are placed at the segment, all of them, in their order.
pub fn rows_go_where_they_are_placed()
    ensures { (script : Script) (events : List (OneEvent × Bool)) → 1 ≤ script.segments → AreLinesNumbered [] script.lines → ArePiecesOf script (world_of script events) }
{}

/// A row's first write is its INSERT's, of the values of its tuple, at the segment where these are placed. Each later write of the
/// row stands there too, and deletes it or has the same in the distribution column, where no UPDATE of the table sets that column.
pub fn rows_stay_where_they_are_inserted()
    ensures { (script : Script) (events : List (OneEvent × Bool)) → 1 ≤ script.segments → AreLinesNumbered [] script.lines
        → AreRowsHome script (marks_in (world_of script events).steps) [] (marks_in (world_of script events).steps) }
{}

/// Every write is legal at its point: its command is under way and has its snapshot, or its transaction has aborted. An INSERT's
/// row is one of the statement's, written for the first time at its place; an UPDATE or DELETE has selected the row, whose current
/// write is free for it. No row is skipped that may not be.
pub fn writes_are_legal()
    ensures { (script : Script) (events : List (OneEvent × Bool)) → 1 ≤ script.segments → AreLinesNumbered [] script.lines → AreWritesLegal script [] (steps_after script events) }
{}

/// A row that a command skips, on which it faults, or of which a segment says that it was overtaken, stands at that segment, also where
/// it is said again. At the coordinator an INSERT's constants alone fault.
pub fn rows_stand_where_they_are_told_of()
    ensures { (script : Script) (events : List (OneEvent × Bool)) → 1 ≤ script.segments → AreLinesNumbered [] script.lines → DoRowsStand [] (steps_after script events) }
{}

/// When an UPDATE or DELETE comes to a segment where it is new, each fault that it notes there in its turn is legal at its point; and
/// what the turn says is so. It says that it is done: then it has written or skipped each row of the node's that it selects, on none
/// of which its condition faults, and its count is of those that it has written there. Or it says its fault, or that another
/// transaction has changed one of its rows since its snapshot. Where it waits it says nothing; nor is anything said here of what it
/// says once its transaction has aborted.
pub fn turns_of_new_changes_are_true()
    ensures { (script : Script) (events : List (OneEvent × Bool)) → 1 ≤ script.segments → AreLinesNumbered [] script.lines → AreNewTurnsTrue script (world_of script events) }
{}

/// The same of one that has waited there, for its table or at a row.
pub fn turns_behind_waits_are_true()
    ensures { (script : Script) (events : List (OneEvent × Bool)) → 1 ≤ script.segments → AreLinesNumbered [] script.lines → AreLaterTurnsTrue script (world_of script events) }
{}

/// Once a segment has said that a command is done there, the command writes no more rows there, whatever happens.
pub fn counts_of_writes_stay()
    ensures { (script : Script) (events later : List (OneEvent × Bool)) → 1 ≤ script.segments → AreLinesNumbered [] script.lines
        → DoCountsStay (world_of script events) (after script (world_of script events) later) }
{}

/// An INSERT that is answered has written the row of each of its tuples, and the answer counts them.
pub fn inserts_are_told()
    ensures { (script : Script) (events : List (OneEvent × Bool)) → 1 ≤ script.segments → AreLinesNumbered [] script.lines → AreInsertsTold script [] (steps_after script events) }
{}

/// A run is a legal history if what SELECTs show, on what commands fault, what segments refuse, and what the answers of commands
/// that change rows or lock a table say are so, and whoever a recheck names is cancelled.
pub fn history_is_legal_with_what_is_left()
    ensures { (script : Script) (events : List (OneEvent × Bool)) → 1 ≤ script.segments → AreLinesNumbered [] script.lines
        → AreLeftLegal script [] (steps_after script events) → IsLegalHistory script (run_of (world_of script events)) }
{}

/// Every run of a script that only inserts is a legal history of one store, once it is shown that whoever a recheck names is cancelled.
pub fn histories_of_inserts_are_legal()
    ensures { (script : Script) (events : List (OneEvent × Bool)) → 1 ≤ script.segments → AreLinesNumbered [] script.lines
        → AreInserting script.lines → AreVerdictsLegal [] (steps_after script events) → IsLegalHistory script (run_of (world_of script events)) }
{}
