//! Runs whose locks are refused, or that answer LOCK TABLE too early, and what legal locks say of every run.
ghost use Rattle.gx_dsnap.specs.declared.snapshot.Snapshot.{Snapshot};
ghost use Rattle.gx_ids.specs.declared.ids.Node.{Node as OneNode};
ghost use Rattle.gx_modes.specs.Table.{conflict};
ghost use Rattle.gx_modes.specs.declared.modes.Mode.{Mode as OneMode};
ghost use Rattle.gx_script.specs.declared.Script.{Script};
ghost use Rattle.gx_store.specs.declared.run.Step.{Step as OneStep};
ghost use Rattle.gx_store.specs.Locks.{AreExclusive, AreLockedSteps};
ghost use Rattle.gx_store.specs.Points.{IsPointOf, Point, before};
ghost use Rattle.gx_store.specs.RefusedHistories.{IsNoHistory};
ghost use Rattle.gx_store.specs.RefusedWaits.{block_of_lock, granted_over, granted_past, locked_at_one, one_query, released_early, released_unended, waits_behind_its_waiter};
ghost use Rattle.gx_tree.specs.declared.query.Query.{Query as OneQuery};
ghost use Rattle.std.specs.Prelude.{IsTrue, List, []};

/// A SELECT that has aborted gives back its table before it is answered: these are no legal locks.
pub fn lock_released_before_the_answer()
    ensures { (script : Script) (query : OneQuery) (snapshot : Snapshot) → AreLockedSteps (one_query script query) [] (released_early snapshot) → ⊥ }
{}

/// A table isn't granted in a mode that conflicts with what another transaction holds.
pub fn lock_granted_over_another()
    ensures { (script : Script) (held wanted : OneMode) → IsTrue (conflict wanted held) → AreLockedSteps script [] (granted_over held wanted) → ⊥ }
{}

/// A table isn't granted past an earlier wait for a mode that conflicts with the one asked for.
pub fn lock_granted_past_a_wait()
    ensures { (script : Script) (held awaited wanted : OneMode) → IsTrue (conflict wanted awaited) → AreLockedSteps script [] (granted_past held awaited wanted) → ⊥ }
{}

/// Nobody is made to wait for one whom its own hold makes wait.
pub fn wait_behind_its_own_waiter()
    ensures { (script : Script) (held awaited wanted : OneMode) → IsTrue (conflict awaited held) → AreLockedSteps script [] (waits_behind_its_waiter held awaited wanted) → ⊥ }
{}

/// No node gives back the table of a transaction that has neither committed nor aborted.
pub fn lock_released_before_the_end()
    ensures { (script : Script) (node : OneNode) (mode : OneMode) → AreLockedSteps script [] (released_unended node mode) → ⊥ }
{}

/// LOCK TABLE isn't answered while a segment doesn't hold the table, whatever that segment says.
pub fn lock_table_answered_too_early()
    ensures { (script : Script) (mode : OneMode) → IsNoHistory (block_of_lock script mode) (locked_at_one mode) }
{}

/// At no point of a run with legal locks do two transactions hold conflicting modes on one object at one node.
pub fn locks_are_exclusive()
    ensures { (script : Script) (steps : List OneStep) (point : Point) → AreLockedSteps script [] steps → IsPointOf steps point → AreExclusive (before point) }
{}
