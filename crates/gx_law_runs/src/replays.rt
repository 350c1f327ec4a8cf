//! Laws of every run, whatever the network loses, repeats, delays and reorders, and whichever appends fail.
ghost use Rattle.std.specs.Prelude.{◌≡◌, Bool, false, List, [], ◌∷◌, ◌++◌};
ghost use Rattle.gx_ids.specs.declared.ids.Node.{Node as OneNode};
ghost use Rattle.gx_law_order.specs.Runs.{steps_after};
ghost use Rattle.gx_law_runs.specs.Replays.{AreReplayed, IsNextAtCoordinator, IsNextAtSegment, coordinator_after, has_failed, is_admitted, letters_after, segment_after};
ghost use Rattle.gx_rules.specs.AtCoordinator.{coord_rule};
ghost use Rattle.gx_rules.specs.AtSegment.{seg_rule};
ghost use Rattle.gx_rules.specs.Coordinators.{Coord as OneCoordinator};
ghost use Rattle.gx_rules.specs.Machine.{can, posted, world_of};
ghost use Rattle.gx_rules.specs.Segments.{Seg as OneSegment};
ghost use Rattle.gx_script.specs.declared.Script.{Script};
ghost use Rattle.gx_store.specs.Journals.{is_same_node};
ghost use Rattle.gx_store.specs.Refusals.{the_coordinator};
ghost use Rattle.gx_store.specs.declared.event.Event.{Event as OneEvent};
ghost use Rattle.gx_store.specs.declared.run.Step.{Step as OneStep};
ghost use Rattle.gx_store.specs.declared.node.NodeEvent.{NodeEvent as OneNodeEvent};
ghost use Rattle.gx_store.specs.declared.node.NodeEvent.TheVariants as here;

/// The marks of a coordinator's turn tell whether its journal failed, where that makes a difference.
pub fn coordinators_marks_tell_failures()
    ensures { (script : Script) (c : OneCoordinator) (here : OneNodeEvent) (fails : Bool)
        → coord_rule script c here (has_failed (coord_rule script c here fails).marks) ≡ coord_rule script c here fails }
{}

/// So do those of a segment's turn.
pub fn segments_marks_tell_failures()
    ensures { (script : Script) (seg : OneSegment) (here : OneNodeEvent) (fails : Bool)
        → seg_rule script seg here (has_failed (seg_rule script seg here fails).marks) ≡ seg_rule script seg here fails }
{}

/// What the nodes hold after a run is told by its steps: each node's data is its rule over its own steps.
pub fn nodes_are_replayed()
    ensures { (script : Script) (events : List (OneEvent × Bool)) → AreReplayed script (world_of script events).steps (world_of script events) }
{}

/// So the steps tell what the machine admits.
pub fn steps_tell_what_is_admitted()
    ensures { (script : Script) (events : List (OneEvent × Bool)) (event : OneEvent) → can script (world_of script events) event ≡ is_admitted script (world_of script events).steps event }
{}

/// A step of the coordinator, done by its rule on what the steps before tell, is the machine's next one.
pub fn coordinators_steps_lead_on()
    ensures { (script : Script) (events : List (OneEvent × Bool)) (step : OneStep) (next : IsNextAtCoordinator script (steps_after script events) step)
        → steps_after script (events ++ (step.event, next.fails) ∷ []) ≡ steps_after script events ++ step ∷ [] }
{}

/// So is a step of a segment.
pub fn segments_steps_lead_on()
    ensures { (script : Script) (events : List (OneEvent × Bool)) (step : OneStep) (next : IsNextAtSegment script (steps_after script events) step)
        → steps_after script (events ++ (step.event, next.fails) ∷ []) ≡ steps_after script events ++ step ∷ [] }
{}

/// What the coordinator holds after its step is its turn's.
pub fn coordinators_steps_move_it()
    ensures { (script : Script) (steps : List OneStep) (step : OneStep) (next : IsNextAtCoordinator script steps step)
        → coordinator_after script (steps ++ step ∷ []) ≡ (coord_rule script (coordinator_after script steps) next.here next.fails).coord }
{}

/// So is what a segment holds after its step.
pub fn segments_steps_move_it()
    ensures { (script : Script) (steps : List OneStep) (step : OneStep) (next : IsNextAtSegment script steps step)
        → segment_after script step.stamp.node (steps ++ step ∷ []) ≡ (seg_rule script (segment_after script step.stamp.node steps) next.here next.fails).seg }
{}

/// Steps of segments leave what the coordinator holds.
pub fn other_steps_leave_the_coordinator()
    ensures { (script : Script) (steps : List OneStep) (step : OneStep) → is_same_node step.stamp.node the_coordinator ≡ false
        → coordinator_after script (steps ++ step ∷ []) ≡ coordinator_after script steps }
{}

/// Steps of other nodes leave what a segment holds.
pub fn other_steps_leave_a_segment()
    ensures { (script : Script) (node : OneNode) (steps : List OneStep) (step : OneStep) → is_same_node step.stamp.node node ≡ false
        → segment_after script node (steps ++ step ∷ []) ≡ segment_after script node steps }
{}

/// A step posts what its marks send.
pub fn steps_post_their_messages()
    ensures { (steps : List OneStep) (step : OneStep) → letters_after (steps ++ step ∷ []) ≡ posted step.stamp.node step.stamp.clock step.marks (letters_after steps) }
{}
