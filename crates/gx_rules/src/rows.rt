//! Small runs of the machine, whose marks, answers and journals are computed.

ghost use Rattle.gx_rules.specs.ChangeRuns.{KeepsImages, RefusesChanged, SecondWaits, SkipsGone, changed_row_run, gone_rows_run, old_images_run, second_update_run};
ghost use Rattle.gx_rules.specs.Expected.{CommitsByOne, FinishesLost, KeepsSnapshot, ReadsBetween, RefusesPromise, RunsOnce, between, kept_run, lost, one_phase, refused_run, repeated};
ghost use Rattle.gx_rules.specs.QueueRuns.{CancelsThroughQueue, WaitsBehindExclusive, WaitsBehindShare, behind_share_run};
ghost use Rattle.gx_rules.specs.RoundRuns.{AwaitsEach, CancelsBoth, CancelsYounger, DecidesOver, DropsTheRound, FindsNobody, GathersReports, ReportsItsWait, TakesItsOwnGraphs};
ghost use Rattle.gx_rules.specs.WaitRuns.{GivesBackInOrder, IsHeldUp, WaitsForForget, WaitsForShare, lost_forget_run, share_lock_run, waiting_run};

/// A block that has written at one segment commits there at once: nothing is promised or decided, and both segments that
/// a command went to are told to forget.
pub fn one_phase_commit()
    ensures { CommitsByOne one_phase }
{}

/// A lost answer to COMMIT PREPARED brings the message again, and each segment commits once.
pub fn lost_committed()
    ensures { FinishesLost lost }
{}

/// An EXEC that comes twice runs once.
pub fn repeated_exec()
    ensures { RunsOnce repeated }
{}

/// A journal that refuses a promise aborts the transaction at both segments, and names its node.
pub fn refused_promise()
    ensures { RefusesPromise refused_run }
{}

/// A reader between the two local commits of a transaction sees none of its rows, and the next one sees both.
pub fn reader_between_commits()
    ensures { ReadsBetween between }
{}

/// A repeatable-read block reads the same before and after a commit of a transaction that began before it.
pub fn kept_snapshot()
    ensures { KeepsSnapshot kept_run }
{}

/// An INSERT waits at the coordinator while a block holds the table in share mode, and goes out, by a new snapshot, once the
/// block has committed.
pub fn share_lock_blocks_insert()
    ensures { WaitsForShare share_lock_run }
{}

/// LOCK TABLE is answered when each segment has locked the table. A slice waits at a segment that hasn't yet been told to forget who
/// locked it, and goes on then.
pub fn slice_waits_for_forget()
    ensures { WaitsForForget lost_forget_run }
{}

/// A slice that waits doesn't resume while something is in its way, and its transaction runs, promises or commits nothing there.
pub fn waiting_slice_is_left_alone()
    ensures { IsHeldUp waiting_run }
{}

/// Who wants to read a table waits behind one who waits for it alone; a block that has read it already reads it again at once.
pub fn reader_behind_exclusive()
    ensures { WaitsBehindExclusive }
{}

/// A block waits behind one who waits for a mode that the block's own lock allows.
pub fn writer_behind_share()
    ensures { WaitsBehindShare behind_share_run }
{}

/// Who waits behind another waits for that: a cycle over it is a deadlock, and loses its youngest transaction.
pub fn deadlock_through_a_queue()
    ensures { CancelsThroughQueue }
{}

/// What a transaction has at a node is given back in order.
pub fn locks_go_back_in_order()
    ensures { GivesBackInOrder }
{}

/// An UPDATE of rows that another block has updated waits until that block has committed, and then writes them too.
pub fn second_update_waits()
    ensures { SecondWaits second_update_run }
{}

/// Rows that were deleted while an UPDATE waited for them are skipped, and a journal says of them that they are gone.
pub fn gone_rows_are_skipped()
    ensures { SkipsGone gone_rows_run }
{}

/// At repeatable read a row that was changed since the snapshot refuses the statement, whose row lock goes with its transaction.
pub fn changed_row_is_refused()
    ensures { RefusesChanged changed_row_run }
{}

/// A repeatable-read block reads the images of its snapshot, whoever updates and deletes their rows.
pub fn snapshot_shows_old_images()
    ensures { KeepsImages old_images_run }
{}

/// Two blocks that ask for each other's table wait for ever: a round cancels the younger, and the other one goes on.
pub fn crosswise_locks()
    ensures { CancelsYounger }
{}

/// Of two deadlocks at once each loses its younger transaction in one step, one wholly behind the other.
pub fn two_deadlocks_in_one_round()
    ensures { CancelsBoth }
{}

/// A round cancels nobody where somebody waits for one that can go on.
pub fn round_without_a_deadlock()
    ensures { FindsNobody }
{}

/// A graph counts for the round that asked for it, alone.
pub fn late_graph_changes_nothing()
    ensures { TakesItsOwnGraphs }
{}

/// A round is decided once every segment has reported in it.
pub fn every_segment_reports()
    ensures { AwaitsEach }
{}

/// A round is decided over the coordinator's own graph and all reports together.
pub fn deadlock_over_two_nodes()
    ensures { GathersReports }
{}

/// Nobody is cancelled where one of those who wait for each other has been told to commit.
pub fn committing_drops_the_round()
    ensures { DropsTheRound }
{}

/// A segment reports whom a slice waits for.
pub fn slice_waits_in_a_report()
    ensures { ReportsItsWait }
{}

/// What is decided over some edges.
pub fn verdicts_over_edges()
    ensures { DecidesOver }
{}
