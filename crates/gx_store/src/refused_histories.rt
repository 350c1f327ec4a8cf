//! Runs that are no histories: in each of them all but one thing is right.
ghost use Rattle.std.specs.Prelude.{◌≡◌, List, [], ◌∷◌, Err, Some, None};
ghost use Rattle.std.specs.declared.option.Option.{Option as OneOption};
ghost use Rattle.gx_dsnap.specs.declared.snapshot.Snapshot.{Snapshot as OneSnapshot};
ghost use Rattle.gx_ids.specs.declared.ids.Table.{Table as OneTable};
ghost use Rattle.gx_meaning.specs.Constants.{values_of};
ghost use Rattle.gx_meaning.specs.declared.fault.ArithFault.{ArithFault as OneFault};
ghost use Rattle.gx_script.specs.declared.Script.{Script as OneScript};
ghost use Rattle.gx_store.specs.RefusedHistories.{IsNoHistory, block_of_insert, block_of_select, commit_is_cancelled, insert_and_select, inserted_nothing, never_started, one_insert, over_two, select_all, select_for_journal, sent_to_nobody, told_another, told_by_another, two_inserts, undrawn, untold, written_elsewhere};
ghost use Rattle.gx_store.specs.Outgoing.{AreSentWhole};
ghost use Rattle.gx_store.specs.RefusedLate.{dealt_out, faulted_late, faulted_when_sent, goes_out, insert_and_update, inserted_late, left_open, only_begin, two_tuples, updated_elsewhere};
ghost use Rattle.gx_store.specs.RefusedParts.{empty_block, other_segment, the_segment};
ghost use Rattle.gx_tree.specs.declared.cond.Cond.{Cond as OneCond};
ghost use Rattle.gx_tree.specs.declared.expr.Expr.{Expr as OneExpr};
ghost use Rattle.gx_tree.specs.declared.query.Query.{Query as OneQuery};
ghost use Rattle.gx_tree.specs.declared.slice.Slice.{Slice as OneSlice};
ghost use Rattle.gx_tree.specs.declared.stmt.Assign.{Assign as OneAssign};
ghost use Rattle.gx_tree.specs.declared.value.Value.{Value as OneValue};
ghost use Rattle.gx_waits.specs.declared.graph.LocalGraph.{LocalGraph as OneGraph};

/// A late write of an INSERT isn't of another's row, and an INSERT isn't answered for a row that it hasn't written.
pub fn inserts_write_their_own_rows()
    ensures elsewhere { (script : OneScript) (table : OneTable) (annas berts : List OneExpr) (snapshot : OneSnapshot) (row : List OneValue)
        → IsNoHistory (two_inserts script table annas berts) (written_elsewhere table snapshot row) }
    ensures nothing { (script : OneScript) (table : OneTable) (tuple : List OneExpr) (snapshot : OneSnapshot) → IsNoHistory (one_insert script table tuple) (inserted_nothing snapshot) }
{}

/// A command isn't refused for an evaluation of which the step receives no word, nor for another cause than the word's, nor by the
/// word of a segment that hasn't noted the fault.
pub fn faults_are_told()
    ensures untold { (script : OneScript) (table : OneTable) (tuple : List OneExpr) (query : OneQuery) (s t : OneSnapshot) (row : List OneValue)
        → IsNoHistory (insert_and_select script table tuple query) (untold table s t row) }
    ensures told_another { (script : OneScript) (table : OneTable) (tuple : List OneExpr) (query : OneQuery) (s t : OneSnapshot) (row : List OneValue)
        → IsNoHistory (insert_and_select script table tuple query) (told_another table s t row) }
    ensures by_another { (script : OneScript) (table : OneTable) (tuple : List OneExpr) (query : OneQuery) (s t : OneSnapshot) (row : List OneValue)
        → IsNoHistory (over_two (insert_and_select script table tuple query)) (told_by_another table s t row) }
{}

/// A command isn't answered that was sent to nobody.
pub fn answers_come_from_segments()
    ensures { (script : OneScript) (query : OneQuery) (snapshot : OneSnapshot) → IsNoHistory (select_all script query) (sent_to_nobody snapshot) }
{}

/// COMMIT isn't cancelled by the detector, and no other line of a block is refused for a journal.
pub fn blocks_are_refused_for_their_own()
    ensures cancelled { (script : OneScript) (graph : OneGraph) → IsNoHistory (empty_block script) (commit_is_cancelled graph) }
    ensures journal { (script : OneScript) (query : OneQuery) → IsNoHistory (block_of_select script query) select_for_journal }
{}

/// BEGIN outside a block doesn't start without drawing a transaction, and nothing is written for a line that was never started.
pub fn lines_start()
    ensures undrawn { (script : OneScript) → IsNoHistory (empty_block script) undrawn }
    ensures never { (script : OneScript) (query : OneQuery) (table : OneTable) (tuple : List OneExpr) (row : List OneValue)
        → IsNoHistory (block_of_insert script query table tuple) (never_started table row) }
{}

/// An INSERT's constants don't fault once it was sent, nor behind the abort of its transaction.
pub fn constants_fault_before_anything_is_sent()
    ensures sent { (script : OneScript) (table : OneTable) (tuple : List OneExpr) (snapshot : OneSnapshot) (slice : OneSlice)
        → IsNoHistory (one_insert script table tuple) (faulted_when_sent snapshot slice) }
    ensures late { (script : OneScript) (table : OneTable) (tuple : List OneExpr) (graph : OneGraph) (snapshot : OneSnapshot) (slice : OneSlice)
        → IsNoHistory (one_insert script table tuple) (faulted_late graph snapshot slice) }
{}

/// An INSERT doesn't go out of which a constant faults.
pub fn faulting_constants_hold_an_insert_back()
    ensures { (script : OneScript) (table : OneTable) (one other : List OneExpr) (fault : OneFault) (snapshot : OneSnapshot) (slice : OneSlice)
        → values_of other ≡ Err fault → AreSentWhole (two_tuples script table one other) [] (goes_out snapshot slice ∷ []) → ⊥ }
{}

/// A late INSERT doesn't write at another segment than its row's, nor that the row is gone; a late UPDATE doesn't write a row of another
/// table.
pub fn late_writes_are_at_their_place()
    ensures place { (script : OneScript) (table : OneTable) (tuple : List OneExpr) (graph : OneGraph) (snapshot : OneSnapshot) (slice : OneSlice) (row : List OneValue)
        → IsNoHistory (dealt_out script table tuple) (inserted_late table graph snapshot slice other_segment (Some row)) }
    ensures image { (script : OneScript) (table : OneTable) (tuple : List OneExpr) (graph : OneGraph) (snapshot : OneSnapshot) (slice : OneSlice)
        → IsNoHistory (dealt_out script table tuple) (inserted_late table graph snapshot slice the_segment None) }
    ensures table { (script : OneScript) (tuple : List OneExpr) (assigns : List OneAssign) (cond : OneOption OneCond) (graph : OneGraph) (s t : OneSnapshot) (old new : List OneValue)
        → IsNoHistory (insert_and_update script tuple assigns cond) (updated_elsewhere graph s t old new) }
{}

/// A session whose block is open doesn't end without its transaction's abort.
pub fn ended_blocks_are_rolled_back()
    ensures { (script : OneScript) → IsNoHistory (only_begin script) left_open }
{}
