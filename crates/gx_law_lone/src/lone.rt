//! Laws of runs in which nothing but a round of the detector is enabled.
ghost use Rattle.std.specs.Prelude.{◌≡◌, ◌≤◌, ◌<◌, true, false, is_some, All, List, [], length, Contains};
ghost use Rattle.std.specs.List.{list_all};
ghost use Rattle.gx_ids.specs.declared.ids.Gxid.{Gxid as OneGxid};
ghost use Rattle.gx_ids.specs.declared.ids.Node.{Node as OneNode};
ghost use Rattle.gx_ids.specs.declared.rid.Rid.{Rid as OneRid};
ghost use Rattle.gx_law_lone.specs.Alone.{AreAllWaits, WaitsSomewhere};
ghost use Rattle.gx_law_lone.specs.Rows.{WaitsAtRow};
ghost use Rattle.gx_locks.specs.Locks.{may_take, wait_of};
ghost use Rattle.gx_law_runs.specs.Awaiting.{locks_at};
ghost use Rattle.gx_law_runs.specs.Openings.{is_round_or_opening};
ghost use Rattle.gx_law_runs.specs.Reached.{IsReached};
ghost use Rattle.gx_law_runs.specs.Replays.{coordinator_after, segment_after, world_behind};
ghost use Rattle.gx_script.specs.declared.Script.{Script};
ghost use Rattle.gx_store.specs.Language.{AreLinesNumbered};
ghost use Rattle.gx_store.specs.Points.{marks_in};
ghost use Rattle.gx_store.specs.Rounds.{IsBlocked, is_active};
ghost use Rattle.gx_store.specs.Schedule.{enabled};
ghost use Rattle.gx_store.specs.Whole.{AreInsertsWhole};
ghost use Rattle.gx_store.specs.declared.run.Step.{Step as OneStep};
ghost use Rattle.gx_waits.specs.declared.claim.Claim.{Claim as OneClaim};
ghost use Rattle.gx_waits.specs.declared.object.Object.TheVariants.{Tuple};
ghost use Rattle.gx_waits.specs.declared.placed_edge.PlacedEdge.{PlacedEdge as OneEdge};

/// Where nothing but a round of the detector is enabled, whoever holds a row's lock at a segment waits there, at that very row: of
/// one that has failed there, or has aborted, something else would be enabled.
pub fn lone_rounds_find_holders_of_rows_waiting()
    ensures { (script : Script) (steps : List OneStep) (node : OneNode) (hold : OneClaim) (rid : OneRid) → 1 ≤ script.segments → AreInsertsWhole script.tables script.lines
        → IsReached script steps → list_all (is_round_or_opening script steps) (enabled script steps) ≡ true → (1 ≤ node.0) × (node.0 ≤ script.segments)
        → Contains (segment_after script node steps).locks.holds hold → hold.object ≡ Tuple rid → WaitsAtRow (world_behind script steps) node hold.gxid rid }
{}

/// And whoever waits at a node, the coordinator or a segment, meets somebody there, who holds or waits ahead.
pub fn lone_rounds_find_waits_that_meet_somebody()
    ensures { (script : Script) (steps : List OneStep) (node : OneNode) (g : OneGxid) → 1 ≤ script.segments → AreInsertsWhole script.tables script.lines
        → IsReached script steps → list_all (is_round_or_opening script steps) (enabled script steps) ≡ true → node.0 ≤ script.segments
        → is_some (wait_of (locks_at (world_behind script steps) node) g) ≡ true → may_take (locks_at (world_behind script steps) node) g ≡ false }
{}

/// Whoever holds a lock at a segment, of whatever kind, waits for one at some node: it has neither committed nor aborted, and its
/// session has something left to do.
pub fn lone_rounds_find_holders_at_segments_waiting()
    ensures { (script : Script) (steps : List OneStep) (node : OneNode) (hold : OneClaim) → 1 ≤ script.segments → AreLinesNumbered [] script.lines
        → All (λ line. line.session.0 < length script.sessions) script.lines → AreInsertsWhole script.tables script.lines
        → IsReached script steps → list_all (is_round_or_opening script steps) (enabled script steps) ≡ true → (1 ≤ node.0) × (node.0 ≤ script.segments)
        → Contains (segment_after script node steps).locks.holds hold → WaitsSomewhere script (world_behind script steps) hold.gxid }
{}

/// And so does whoever holds one at the coordinator.
pub fn lone_rounds_find_holders_at_the_coordinator_waiting()
    ensures { (script : Script) (steps : List OneStep) (hold : OneClaim) → 1 ≤ script.segments → AreLinesNumbered [] script.lines
        → All (λ line. line.session.0 < length script.sessions) script.lines → AreInsertsWhole script.tables script.lines
        → IsReached script steps → list_all (is_round_or_opening script steps) (enabled script steps) ≡ true
        → Contains (coordinator_after script steps).locks.holds hold → WaitsSomewhere script (world_behind script steps) hold.gxid }
{}

/// Whoever waits at a node is active: it has begun, has neither committed nor aborted, and isn't asked to prepare or to commit.
pub fn lone_rounds_find_waiters_active()
    ensures { (script : Script) (steps : List OneStep) (node : OneNode) (g : OneGxid) → 1 ≤ script.segments → AreInsertsWhole script.tables script.lines
        → IsReached script steps → list_all (is_round_or_opening script steps) (enabled script steps) ≡ true → node.0 ≤ script.segments
        → is_some (wait_of (locks_at (world_behind script steps) node) g) ≡ true → is_active (marks_in steps) g ≡ true }
{}

/// All waits that stand then are a blocked set: whoever is waited for waits too, where it is for a row's lock at the same node, and all
/// are active. So a round that is decided over them names somebody, where anybody waits.
pub fn lone_rounds_find_all_waits_blocked()
    ensures { (script : Script) (steps : List OneStep) (edges : List OneEdge) → 1 ≤ script.segments → AreLinesNumbered [] script.lines
        → All (λ line. line.session.0 < length script.sessions) script.lines → AreInsertsWhole script.tables script.lines
        → IsReached script steps → list_all (is_round_or_opening script steps) (enabled script steps) ≡ true
        → AreAllWaits script (marks_in steps) edges → IsBlocked (marks_in steps) edges }
{}
