//! Runs in which a lock is waited for or granted that nobody has asked for.
ghost use Rattle.gx_dsnap.specs.declared.snapshot.Snapshot.{Snapshot};
ghost use Rattle.gx_ids.specs.declared.rid.Rid.{Rid as OneRid};
ghost use Rattle.gx_script.specs.declared.Script.{Script};
ghost use Rattle.gx_store.specs.Asking.{AreAsked};
ghost use Rattle.gx_store.specs.RefusedAsking.{change_and_insert, done_while_waiting, idle_wait, locks_itself_early, locks_too_little, one_change, two_changes, two_locks, two_queried, waits_elsewhere, waits_for_a_reader, waits_for_more, waits_for_the_ended, waits_for_unselected, waits_here_for_more, waits_when_done, waits_without_lock, writes_when_done};
ghost use Rattle.gx_store.specs.Silent.{AreWaitersSilent};
ghost use Rattle.gx_store.specs.RefusedWaits.{one_query};
ghost use Rattle.gx_tree.specs.declared.cond.Cond.{Cond as OneCond};
ghost use Rattle.gx_tree.specs.declared.expr.Expr.{Expr as OneExpr};
ghost use Rattle.gx_tree.specs.declared.query.Query.{Query as OneQuery};
ghost use Rattle.gx_tree.specs.declared.row.KeyedRow.{KeyedRow as OneRow};
ghost use Rattle.gx_tree.specs.declared.stmt.Assign.{Assign as OneAssign};
ghost use Rattle.gx_tree.specs.declared.value.Value.{Value as OneValue};
ghost use Rattle.std.specs.Prelude.{List, []};
ghost use Rattle.std.specs.declared.option.Option.{Option as Perhaps};

/// A transaction whose session is idle waits for nothing.
pub fn waited_for_while_idle()
    ensures { (script : Script) → AreAsked (two_locks script) [] idle_wait → ⊥ }
{}

/// A SELECT doesn't wait for its table in a mode that isn't its own, neither at a segment nor at the coordinator.
pub fn waited_for_in_another_mode()
    ensures there { (script : Script) (query : OneQuery) (snapshot : Snapshot) → AreAsked (one_query script query) [] (waits_for_more query snapshot) → ⊥ }
    ensures here { (script : Script) (query : OneQuery) → AreAsked (one_query script query) [] waits_here_for_more → ⊥ }
{}

/// A SELECT doesn't wait at a segment that hasn't received it.
pub fn waited_for_before_it_came()
    ensures { (script : Script) (query : OneQuery) (snapshot : Snapshot) → AreAsked (two_queried script query) [] (waits_elsewhere query snapshot) → ⊥ }
{}

/// A segment that has said that an UPDATE is done there writes no row for it.
pub fn written_behind_done()
    ensures { (script : Script) (assigns : List OneAssign) (cond : Perhaps OneCond) (snapshot : Snapshot) (rid : OneRid) (image : Perhaps (List OneValue))
        → AreAsked (one_change script assigns cond) [] (writes_when_done assigns cond snapshot rid image) → ⊥ }
{}

/// An UPDATE waits for nobody's end who hasn't written there, and doesn't lock itself before it writes.
pub fn asked_for_without_need()
    ensures reader { (script : Script) (assigns : List OneAssign) (cond : Perhaps OneCond) (snapshot : Snapshot) → AreAsked (one_change script assigns cond) [] (waits_for_a_reader assigns cond snapshot) → ⊥ }
    ensures itself { (script : Script) (assigns : List OneAssign) (cond : Perhaps OneCond) (snapshot : Snapshot) → AreAsked (one_change script assigns cond) [] (locks_itself_early assigns cond snapshot) → ⊥ }
{}

/// An UPDATE waits at a row that it has selected, and for nobody who has ended there.
pub fn waited_for_at_no_row_of_its_own()
    ensures unselected { (script : Script) (rows : List OneRow) (image : List OneValue) (assigns : List OneAssign) (cond : Perhaps OneCond) (tuples : List (List OneExpr)) (snapshot : Snapshot)
        → AreAsked (change_and_insert script assigns cond tuples) [] (waits_for_unselected rows image assigns cond snapshot) → ⊥ }
    ensures ended { (script : Script) (rows : List OneRow) (image : List OneValue) (assigns : List OneAssign) (cond : Perhaps OneCond) (tuples : List (List OneExpr)) (snapshot : Snapshot)
        → AreAsked (change_and_insert script assigns cond tuples) [] (waits_for_the_ended rows image assigns cond snapshot) → ⊥ }
{}

/// An UPDATE that waits for a writer's end has the row's lock.
pub fn waited_for_without_the_row()
    ensures { (script : Script) (rows : List OneRow) (image changed : List OneValue) (assigns : List OneAssign) (cond : Perhaps OneCond) (tuples : List (List OneExpr)) (snapshot later : Snapshot)
        → AreAsked (two_changes script assigns cond tuples) [] (waits_without_lock rows image changed assigns cond snapshot later) → ⊥ }
{}

/// A segment that has said that a command is done there has it wait for nothing more.
pub fn waited_for_behind_done()
    ensures { (script : Script) (query : OneQuery) (snapshot : Snapshot) → AreAsked (two_queried script query) [] (waits_when_done query snapshot) → ⊥ }
{}

/// Who waits at a segment isn't done there.
pub fn done_while_it_waits()
    ensures { (query : OneQuery) (snapshot : Snapshot) → AreWaitersSilent [] (done_while_waiting query snapshot) → ⊥ }
{}

/// Without a detector an UPDATE isn't granted its table in ROW EXCLUSIVE.
pub fn granted_in_too_weak_a_mode()
    ensures { (script : Script) (assigns : List OneAssign) (cond : Perhaps OneCond) (snapshot : Snapshot) → AreAsked (one_change script assigns cond) [] (locks_too_little assigns cond snapshot) → ⊥ }
{}
