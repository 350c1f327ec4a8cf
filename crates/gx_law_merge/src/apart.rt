//! Laws of one node apart, by its own history.
ghost use Rattle.std.specs.Prelude.{◌≡◌, Bool, List};
ghost use Rattle.gx_ids.specs.declared.ids.Node.{Node as OneNode};
ghost use Rattle.gx_law_merge.specs.Apart.{DoesFollow, HasMore, IsSameBy, Post, coordinators_rule, segments_rule};
ghost use Rattle.gx_law_runs.specs.Replays.{has_failed};
ghost use Rattle.gx_rules.specs.AtCoordinator.{coord_rule};
ghost use Rattle.gx_rules.specs.AtSegment.{seg_rule};
ghost use Rattle.gx_rules.specs.Coordinators.{Coord as OneCoordinator};
ghost use Rattle.gx_rules.specs.Machine.{kept_item};
ghost use Rattle.gx_rules.specs.Segments.{Seg as OneSegment};
ghost use Rattle.gx_script.specs.declared.Script.{Script};
ghost use Rattle.gx_store.specs.Refusals.{the_coordinator};
ghost use Rattle.gx_store.specs.declared.node.NodeEvent.{NodeEvent as OneNodeEvent};
ghost use Rattle.gx_store.specs.declared.run.Step.{Step as OneStep};

/// A history that follows its node's rule does so where the links have more, and the node holds the same and its journal has taken
/// the same. So what is sent later, and what hasn't come yet, makes no difference to it.
pub fn longer_links_change_no_history()
    ensures coordinator { (script : Script) (post more : Post) (held : OneCoordinator) (steps : List OneStep) → HasMore post more
        → DoesFollow (coordinators_rule script) the_coordinator post held steps → IsSameBy (coordinators_rule script) the_coordinator post more held steps }
    ensures segment { (script : Script) (node : OneNode) (post more : Post) (held : OneSegment) (steps : List OneStep) → HasMore post more
        → DoesFollow (segments_rule script) node post held steps → IsSameBy (segments_rule script) node post more held steps }
{}

/// The marks of a turn tell what its journal took: the turn's item, unless they say that the journal failed.
pub fn marks_tell_what_journals_take()
    ensures coordinator { (script : Script) (c : OneCoordinator) (here : OneNodeEvent) (fails : Bool)
        → kept_item (has_failed (coord_rule script c here fails).marks) (coord_rule script c here fails).item ≡ kept_item fails (coord_rule script c here fails).item }
    ensures segment { (script : Script) (seg : OneSegment) (here : OneNodeEvent) (fails : Bool)
        → kept_item (has_failed (seg_rule script seg here fails).marks) (seg_rule script seg here fails).item ≡ kept_item fails (seg_rule script seg here fails).item }
{}
