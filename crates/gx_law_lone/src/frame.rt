//! What a round of the detector leaves as it was, until it names somebody.
ghost use Rattle.std.specs.Prelude.{◌≡◌, Bool, true};
ghost use Rattle.gx_law_lone.specs.Frame.{IsCoordLeft, IsSegLeft, is_event_of_round};
ghost use Rattle.gx_rules.specs.AtCoordinator.{coord_turn};
ghost use Rattle.gx_rules.specs.AtSegment.{seg_rule};
ghost use Rattle.gx_rules.specs.Coordinators.{Coord};
ghost use Rattle.gx_rules.specs.Segments.{Seg};
ghost use Rattle.gx_script.specs.declared.Script.{Script};
ghost use Rattle.gx_store.specs.declared.node.NodeEvent.{NodeEvent};

/// An event of a round changes no transaction, session or lock at the coordinator, the recheck included, whose victims are cancelled
/// behind it, each in a turn of its own. So what is awaited of a transaction stays as it was.
pub fn rounds_leave_the_coordinator()
    ensures { (script : Script) (c : Coord) (event : NodeEvent) (fails : Bool) → is_event_of_round event ≡ true → IsCoordLeft c (coord_turn script c event fails).coord }
{}

/// Nor does it change a segment's horizon, transactions, rows or locks.
pub fn rounds_leave_a_segment()
    ensures { (script : Script) (s : Seg) (event : NodeEvent) (fails : Bool) → is_event_of_round event ≡ true → IsSegLeft s (seg_rule script s event fails).seg }
{}
