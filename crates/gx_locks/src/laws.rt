//! Laws of the definitions, for those who build on them.
ghost use Rattle.std.specs.Prelude.{◌↔◌, ◌≡◌, IsTrue, List, true};
ghost use Rattle.std.specs.List.{list_any};
ghost use Rattle.gx_waits.specs.declared.claim.Claim.{Claim};
ghost use Rattle.gx_waits.specs.Claim.{AreEdges, Meets, meets, same_claim};
ghost use Rattle.gx_waits.specs.Claims.{is_clear};
ghost use Rattle.gx_waits.specs.Graph.{edges_at};
ghost use Rattle.gx_locks.specs.Kept.{AreExclusive};
ghost use Rattle.gx_locks.specs.Locks.{Locks};
ghost use Rattle.gx_locks.specs.Runs.{Call, IsRun, IsSound};

/// The test by which requests are granted says what an edge of the wait graph says.
pub fn meets_is_tested()
    ensures { (claim other : Claim) → IsTrue (meets claim other) ↔ Meets claim other }
{}

/// The edges of a table's graph are those that its waits and holds make.
pub fn graph_has_the_edges()
    ensures { (waits holds : List Claim) → AreEdges waits holds (edges_at waits holds) }
{}

/// Whatever is called in whatever order, no two holds of different transactions conflict on one object.
pub fn exclusion_is_kept()
    ensures { (calls : List Call) (locks : Locks) → IsRun calls locks → IsSound locks }
{}

/// Who holds a lock already has a clear way for it, whoever waits: what it meets waits for that hold.
pub fn held_is_clear()
    ensures { (holds waits : List Claim) (claim : Claim) → AreExclusive holds → list_any (same_claim claim) holds ≡ true → is_clear holds waits claim ≡ true }
{}
