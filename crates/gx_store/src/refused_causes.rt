//! Runs that don't follow the commit protocol since something comes without its cause: in each of them all but one thing is right.
ghost use Rattle.std.specs.Prelude.{◌≢◌, ℕ, Bool as Truth, List, None};
ghost use Rattle.std.specs.declared.option.Option.{Option as Maybe};
ghost use Rattle.gx_dsnap.specs.declared.snapshot.Snapshot.{Snapshot as OneSnapshot};
ghost use Rattle.gx_ids.specs.declared.ids.Table.{Table as OneTable};
ghost use Rattle.gx_ids.specs.declared.rid.Rid.{Rid as OneRid};
ghost use Rattle.gx_msg.specs.declared.message.Message.TheVariants as message;
ghost use Rattle.gx_msg.specs.declared.reply.Cause.{Cause as OneCause};
ghost use Rattle.gx_msg.specs.declared.reply.Reply.TheVariants as reply;
ghost use Rattle.gx_script.specs.declared.Script.{Script as OneScript};
ghost use Rattle.gx_store.specs.declared.mark.Mark.TheVariants as mark;
ghost use Rattle.gx_store.specs.RefusedCauses.{alone, answers_twice, asked_before_commit, asked_unwritten, at_three, done_unexecuted, failed_unasked, failed_undecided, marked_elsewhere, marked_unexecuted, one_update, one_writer, overtaken_elsewhere, said_unasked, TellsElsewhere, told_at_once, told_early, told_undone, written_behind_commit, written_behind_decision, asked_alone, committed_behind_failure, decided_behind_failure, faulted_behind_abort, sent_behind_answer, sent_behind_prepare, told_half_sent};
ghost use Rattle.gx_store.specs.OneAnswer.{DoSegmentsAnswerOnce};
ghost use Rattle.gx_store.specs.RefusedCommits.{BreaksProtocol, two_writers};
ghost use Rattle.gx_store.specs.RefusedParts.{empty_block, first_cid, first_txn, nth_row, second_txn};
ghost use Rattle.gx_store.specs.Refusals.{the_coordinator};
ghost use Rattle.gx_tree.specs.declared.part.Part.{Part as OnePart};
ghost use Rattle.gx_tree.specs.declared.cond.Cond.{Cond as OneCond};
ghost use Rattle.gx_tree.specs.declared.expr.Expr.{Expr as OneExpr};
ghost use Rattle.gx_tree.specs.declared.stmt.Assign.{Assign as OneAssign};
ghost use Rattle.gx_tree.specs.declared.value.Value.{Value as OneValue};

/// Nothing is written at any segment once one has committed, nor behind the decision.
pub fn nothing_is_written_behind_the_end()
    ensures commit { (script : OneScript) (table : OneTable) (tuple : List OneExpr) (snapshot : OneSnapshot) (row late : List OneValue)
        → BreaksProtocol (one_writer script table tuple) (written_behind_commit table snapshot row late) }
    ensures decision { (script : OneScript) (table : OneTable) (one other : List OneExpr) (snapshot : OneSnapshot) (row more late : List OneValue)
        → BreaksProtocol (at_three (two_writers script table one other)) (written_behind_decision table snapshot row more late) }
{}

/// A segment that hasn't received a command doesn't say that it is done with it or that it has failed, skips no row for it, and faults
/// on none.
pub fn commands_are_received_first()
    ensures done { (script : OneScript) (table : OneTable) (assigns : List OneAssign) (cond : Maybe OneCond) (snapshot : OneSnapshot)
        → BreaksProtocol (one_update script table assigns cond) (done_unexecuted table assigns cond snapshot) }
    ensures failed { (script : OneScript) (table : OneTable) (assigns : List OneAssign) (cond : Maybe OneCond) (snapshot : OneSnapshot) (cause : OneCause)
        → BreaksProtocol (one_update script table assigns cond) (marked_unexecuted table assigns cond snapshot (mark.Sent the_coordinator 1 (message.Answer first_txn (reply.Failed first_cid cause)))) }
    ensures skipped { (script : OneScript) (table : OneTable) (assigns : List OneAssign) (cond : Maybe OneCond) (snapshot : OneSnapshot) (rid : OneRid)
        → BreaksProtocol (one_update script table assigns cond) (marked_unexecuted table assigns cond snapshot (mark.Skip first_txn first_cid rid)) }
    ensures faulted { (script : OneScript) (table : OneTable) (assigns : List OneAssign) (cond : Maybe OneCond) (snapshot : OneSnapshot) (rid : OneRid) (image : Maybe (List OneValue))
        → BreaksProtocol (one_update script table assigns cond) (marked_unexecuted table assigns cond snapshot (mark.Fault first_txn first_cid rid image)) }
{}

/// A segment that has said that a command is done doesn't say that it has failed; nor does one that has said so for one cause say so for
/// another.
pub fn segments_answer_once()
    ensures done { (script : OneScript) (table : OneTable) (assigns : List OneAssign) (cond : Maybe OneCond) (snapshot : OneSnapshot) (wrote : Truth) (count : ℕ) (part : OnePart) (cause : OneCause)
        → DoSegmentsAnswerOnce (one_update script table assigns cond) (answers_twice table assigns cond snapshot (reply.Done first_cid wrote count part) (reply.Failed first_cid cause)) → ⊥ }
    ensures failed { (script : OneScript) (table : OneTable) (assigns : List OneAssign) (cond : Maybe OneCond) (snapshot : OneSnapshot) (cause another : OneCause) → cause ≢ another
        → DoSegmentsAnswerOnce (one_update script table assigns cond) (answers_twice table assigns cond snapshot (reply.Failed first_cid cause) (reply.Failed first_cid another)) → ⊥ }
{}

/// Of a row that stands at one segment another one tells nothing: it doesn't skip it, faults on no image of it, and doesn't say that it
/// was overtaken.
pub fn rows_are_told_of_where_they_stand()
    ensures skipped { (table : OneTable) (assigns : List OneAssign) (cond : Maybe OneCond) (before snapshot : OneSnapshot) (row : List OneValue)
        → TellsElsewhere (marked_elsewhere table assigns cond before snapshot row (mark.Skip second_txn first_cid (nth_row first_txn 1))) }
    ensures faulted { (table : OneTable) (assigns : List OneAssign) (cond : Maybe OneCond) (before snapshot : OneSnapshot) (row : List OneValue) (image : Maybe (List OneValue))
        → TellsElsewhere (marked_elsewhere table assigns cond before snapshot row (mark.Fault second_txn first_cid (nth_row first_txn 1) image)) }
    ensures overtaken { (table : OneTable) (assigns : List OneAssign) (cond other : Maybe OneCond) (before snapshot later : OneSnapshot) (row : List OneValue)
        → TellsElsewhere (overtaken_elsewhere table assigns cond other before snapshot later row) }
{}

/// No journal fails that has nothing to take: a segment's that was asked for nothing, or the coordinator's with nothing to decide.
pub fn journals_fail_at_their_items()
    ensures unasked { (script : OneScript) → BreaksProtocol (empty_block script) failed_unasked }
    ensures undecided { (script : OneScript) → BreaksProtocol (empty_block script) failed_undecided }
{}

/// A journal that has failed takes nothing for its transaction in the same step.
pub fn failures_leave_nothing()
    ensures decided { (script : OneScript) (table : OneTable) (one other : List OneExpr) (snapshot : OneSnapshot) (row more : List OneValue)
        → BreaksProtocol (two_writers script table one other) (decided_behind_failure table snapshot row more) }
    ensures committed { (script : OneScript) (table : OneTable) (tuple : List OneExpr) (snapshot : OneSnapshot) (row : List OneValue)
        → BreaksProtocol (one_writer script table tuple) (committed_behind_failure table snapshot row) }
{}

/// The coordinator notes no fault of a transaction that has aborted.
pub fn late_faults_are_of_segments()
    ensures { (script : OneScript) (table : OneTable) (assigns : List OneAssign) (cond : Maybe OneCond) (snapshot : OneSnapshot) (rid : OneRid) (row : List OneValue)
        → BreaksProtocol (one_update script table assigns cond) (faulted_behind_abort table assigns cond snapshot rid row) }
{}

/// Nobody is asked to promise before COMMIT, nor told to commit before the one command is done at each segment of its plan.
pub fn commits_have_their_line()
    ensures early { (script : OneScript) (table : OneTable) (one other : List OneExpr) (snapshot : OneSnapshot) (row more : List OneValue)
        → BreaksProtocol (two_writers script table one other) (asked_before_commit table snapshot row more) }
    ensures undone { (script : OneScript) (table : OneTable) (one other : List OneExpr) (snapshot : OneSnapshot) (row more : List OneValue)
        → BreaksProtocol (alone script table one other) (told_undone table snapshot row more) }
    ensures unsent { (script : OneScript) (table : OneTable) (assigns : List OneAssign) (snapshot : OneSnapshot) (rid : OneRid) (row : List OneValue)
        → BreaksProtocol (one_update script table assigns None) (told_half_sent table assigns snapshot rid row) }
{}

/// Nobody is asked to promise who hasn't written, of two writers none is told to commit at once, and none as promised before it is
/// decided.
pub fn orders_go_to_whom_they_are_for()
    ensures unwritten { (script : OneScript) → BreaksProtocol (empty_block script) asked_unwritten }
    ensures at_once { (script : OneScript) (table : OneTable) (one other : List OneExpr) (snapshot : OneSnapshot) (row more : List OneValue)
        → BreaksProtocol (two_writers script table one other) (told_at_once table snapshot row more) }
    ensures early { (script : OneScript) (table : OneTable) (one other : List OneExpr) (snapshot : OneSnapshot) (row more : List OneValue)
        → BreaksProtocol (two_writers script table one other) (told_early table snapshot row more) }
    ensures alone { (script : OneScript) (table : OneTable) (tuple : List OneExpr) (snapshot : OneSnapshot) (row : List OneValue)
        → BreaksProtocol (one_writer script table tuple) (asked_alone table snapshot row) }
{}

/// A command is sent, also again, as long as its line is under way and nobody was asked to prepare its transaction.
pub fn commands_go_out_in_time()
    ensures prepared { (script : OneScript) (table : OneTable) (one other : List OneExpr) (snapshot : OneSnapshot) (row more : List OneValue)
        → BreaksProtocol (alone script table one other) (sent_behind_prepare table snapshot row more) }
    ensures answered { (script : OneScript) (table : OneTable) (tuple : List OneExpr) (snapshot : OneSnapshot) (row : List OneValue)
        → BreaksProtocol (one_writer script table tuple) (sent_behind_answer table snapshot row) }
{}

/// No segment says that it has aborted or forgotten what it wasn't told to.
pub fn ends_are_told_in_answer()
    ensures aborted { (script : OneScript) → BreaksProtocol (empty_block script) (said_unasked reply.Aborted) }
    ensures forgotten { (script : OneScript) → BreaksProtocol (empty_block script) (said_unasked reply.Forgotten) }
{}
