//! Laws of the definitions, for those who build on them.
ghost use Rattle.std.specs.Prelude.{◌≡◌, List};
ghost use Rattle.gx_ids.specs.declared.ids.Gxid.{Gxid};
ghost use Rattle.gx_waits.specs.declared.placed_edge.PlacedEdge.{PlacedEdge};
ghost use Rattle.gx_waits.specs.Closed.{IsNamedInStuck};
ghost use Rattle.gx_waits.specs.Finish.{CanFinish};
ghost use Rattle.gx_waits.specs.Victims.{AreVictims, IsVerdict};
ghost use Rattle.gx_waits.specs.declared.verdict.Verdict.{Verdict};

/// A transaction that a stuck edge names can't finish, whatever the others do.
pub fn stuck_never_finishes()
    ensures { (edges : List PlacedEdge) (v : Gxid) → IsNamedInStuck edges v → CanFinish edges v → ⊥ }
{}

/// Edges have one list of victims.
pub fn victims_are_determined()
    ensures { (edges : List PlacedEdge) (vs ws : List Gxid) → AreVictims edges vs → AreVictims edges ws → vs ≡ ws }
{}

/// Edges have one verdict, given the active transactions.
pub fn verdict_is_determined()
    ensures { (edges : List PlacedEdge) (active : List Gxid) (x y : Verdict) → IsVerdict edges active x → IsVerdict edges active y → x ≡ y }
{}
