//! Laws of every run, whatever the network loses, repeats, delays and reorders, and whichever appends fail.
ghost use Rattle.std.specs.Prelude.{◌≡◌, ◌≤◌, Bool, true, List, Contains};
ghost use Rattle.gx_ids.specs.declared.ids.Node.{Node as OneNode};
ghost use Rattle.gx_law_lone.specs.Rows.{AreHoldersRunning, AreRowsHeldByWaiters};
ghost use Rattle.gx_law_order.specs.Sessions.{is_said};
ghost use Rattle.gx_law_order.specs.Stages.{stage_of};
ghost use Rattle.gx_rules.specs.Machine.{world_of};
ghost use Rattle.gx_script.specs.declared.Script.{Script};
ghost use Rattle.gx_store.specs.declared.event.Event.{Event as OneEvent};
ghost use Rattle.gx_waits.specs.declared.claim.Claim.{Claim as OneClaim};

/// Between events a row's lock is held at a segment by a transaction whose slice waits there, at that very row; or by one whose last
/// command has failed there, which hasn't ended there, and whose answer the coordinator awaits; or by one that has aborted. So whoever
/// holds a row's lock while its transaction may still run waits there, or something of it is still to come.
pub fn who_holds_a_rows_lock_waits_there()
    ensures { (script : Script) (events : List (OneEvent × Bool)) (node : OneNode) → 1 ≤ script.segments → 1 ≤ node.0 → AreRowsHeldByWaiters (world_of script events) node }
{}

/// Whoever holds a lock at a segment, of whatever kind, has had a command taken there, and hasn't ended there.
pub fn who_holds_a_lock_has_come_and_not_ended()
    ensures { (script : Script) (events : List (OneEvent × Bool)) (node : OneNode) → 1 ≤ script.segments → AreHoldersRunning (world_of script events) node }
{}

/// Whoever holds a lock at the coordinator has a transaction there that runs, or is on its way to a commit.
pub fn who_holds_a_lock_at_the_coordinator_runs()
    ensures { (script : Script) (events : List (OneEvent × Bool)) (hold : OneClaim) → 1 ≤ script.segments → Contains (world_of script events).coord.locks.holds hold
        → is_said (stage_of (world_of script events).coord hold.gxid.0) ≡ true }
{}
