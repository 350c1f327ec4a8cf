//! Laws of every run, whatever the network loses, repeats, delays and reorders, and whichever appends fail.
ghost use Rattle.std.specs.Prelude.{◌≤◌, Bool, List};
ghost use Rattle.gx_rules.specs.Machine.{after, world_of};
ghost use Rattle.gx_script.specs.declared.Script.{Script};
ghost use Rattle.gx_store.specs.declared.event.Event.{Event as OneEvent};
ghost use Rattle.gx_ids.specs.declared.ids.Gxid.{Gxid as OneGxid};
ghost use Rattle.gx_ids.specs.declared.ids.Node.{Node as OneNode};
ghost use Rattle.gx_ids.specs.declared.ids.Table.{Table as OneTable};
ghost use Rattle.gx_law_reads.specs.Horizons.{AreHorizonsLow, HasRisen, IsNobodyDropped};
ghost use Rattle.gx_store.specs.Points.{marks_in};
ghost use Rattle.gx_store.specs.View.{AreFinalFrom};
ghost use Rattle.gx_tree.specs.declared.row.KeyedRow.{KeyedRow as OneRow};
ghost use Rattle.std.specs.declared.alloc.Global.{Global as OneGlobal};
ghost use Rattle.std.specs.declared.vec.Vec.{Vec as OneVec};
ghost use Rattle.gx_law_reads.specs.Sights.{AreAtHome, AreRowsOfAll, AreShownViews, DoViewsStay, DoesEndAt, ShowsCommitted};

/// No horizon, of a segment or of a command that was ever sent, is above a transaction that the coordinator still knows, or
/// above the `xmin` of a live snapshot.
pub fn horizons_are_low()
    ensures { (script : Script) (events : List (OneEvent × Bool)) → 1 ≤ script.segments → AreHorizonsLow (world_of script events) }
{}

/// The horizon of the coordinator's transactions never falls.
pub fn the_horizon_never_falls()
    ensures { (script : Script) (events : List (OneEvent × Bool)) (later : List (OneEvent × Bool)) → 1 ≤ script.segments
        → HasRisen (world_of script events) (after script (world_of script events) later) }
{}

/// A command with a snapshot that a segment has still to run, of a transaction that wasn't aborted, sees whoever is below the
/// horizon there. Only LOCK TABLE has no snapshot, and it sees nothing.
pub fn nobody_is_dropped_too_early()
    ensures { (script : Script) (events : List (OneEvent × Bool)) → 1 ≤ script.segments → IsNobodyDropped (world_of script events) (world_of script events).sent }
{}

/// The marks and each segment's record tell the same of a transaction's end: who has committed is committed where it has
/// written and nowhere else, and nothing is written for it any more; who was aborted is committed nowhere.
pub fn ends_are_the_same_everywhere()
    ensures { (script : Script) (events : List (OneEvent × Bool)) (node : OneNode) (g : OneGxid) → 1 ≤ script.segments → DoesEndAt (world_of script events) node g }
{}

/// To a command with a snapshot that it has still to run, a segment shows each row that is written there alone as it is for the
/// command at the place where its snapshot was taken. Only LOCK TABLE has no snapshot, and it is shown nothing.
pub fn segments_show_the_view()
    ensures { (script : Script) (events : List (OneEvent × Bool)) → 1 ≤ script.segments → AreShownViews (world_of script events) (world_of script events).sent }
{}

/// By a snapshot that is taken now, and to nobody's transaction, a segment shows each row that is written there alone as all
/// committed writes left it: at the end of a run these are the final tables.
pub fn segments_show_what_has_committed()
    ensures { (script : Script) (events : List (OneEvent × Bool)) (node : OneNode) (table : OneTable) → 1 ≤ script.segments → 1 ≤ node.0 → ShowsCommitted (world_of script events) node table }
{}

/// What a command that a node has taken sees of the rows that are written there alone never changes any more.
pub fn views_stay()
    ensures { (script : Script) (events : List (OneEvent × Bool)) (later : List (OneEvent × Bool)) → 1 ≤ script.segments
        → DoViewsStay (world_of script events) (after script (world_of script events) later) }
{}

/// Where each row is written at one segment alone, the rows that the segments show to nobody's transaction, by a snapshot
/// that is taken at the end of a run, are the final tables.
pub fn rows_at_home_are_the_final_tables()
    ensures { (script : Script) (events : List (OneEvent × Bool)) (tables : List (OneVec OneRow OneGlobal)) → 1 ≤ script.segments
        → AreAtHome (marks_in (world_of script events).steps) → AreRowsOfAll 0 (world_of script events) tables
        → AreFinalFrom 0 (marks_in (world_of script events).steps) tables }
{}
