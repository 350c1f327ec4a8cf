//! Laws of who waits and who resumes, told by what the nodes hold after a run that is reached.
ghost use Rattle.std.specs.Prelude.{◌≡◌, ◌≤◌, ◌==◌, Bool, true, ◌&&◌, ◌||◌, not, List, [], ◌∷◌, length};
ghost use Rattle.std.specs.List.{list_any};
ghost use Rattle.gx_ids.specs.declared.ids.Gxid.{Gxid as OneGxid};
ghost use Rattle.gx_ids.specs.declared.ids.Node.{Node as OneNode};
ghost use Rattle.gx_locks.specs.Locks.{may_take};
ghost use Rattle.gx_law_runs.specs.Reached.{IsReached};
ghost use Rattle.gx_law_runs.specs.Replays.{coordinator_after, is_admitted, segment_after};
ghost use Rattle.gx_rules.specs.AtCoordinator.{is_segment};
ghost use Rattle.gx_script.specs.declared.Script.{Script};
ghost use Rattle.gx_store.specs.Points.{marks_in};
ghost use Rattle.gx_store.specs.Schedule.{is_any_wait, resumptions, segments_of};
ghost use Rattle.gx_store.specs.declared.event.Event.TheVariants.{Resume};
ghost use Rattle.gx_store.specs.declared.run.Step.{Step as OneStep};

/// Somebody waits by the marks where somebody waits in the locks of the coordinator or of a segment.
pub fn waits_stand_at_the_nodes()
    ensures { (script : Script) (steps : List OneStep) → 1 ≤ script.segments → IsReached script steps
        → is_any_wait script (marks_in steps)
        ≡ (not (length (coordinator_after script steps).locks.waits == 0)
        || list_any (λ segment. not (length (segment_after script segment steps).locks.waits == 0)) (segments_of script)) }
{}

/// Who waits at one of the script's segments may resume there where the wait is ready.
pub fn ready_waits_may_resume_at_a_segment()
    ensures { (script : Script) (steps : List OneStep) (segment : OneNode) (g : OneGxid) → 1 ≤ script.segments → IsReached script steps → 1 ≤ segment.0
        → is_admitted script steps (Resume segment g)
        ≡ (is_segment script segment && may_take (segment_after script segment steps).locks g) }
{}

/// Who resumes is admitted.
pub fn resumptions_are_admitted()
    ensures { (script : Script) (steps : List OneStep) (node : OneNode) (g : OneGxid) → 1 ≤ script.segments → IsReached script steps → node.0 ≤ script.segments
        → resumptions (marks_in steps) node ≡ Resume node g ∷ [] → is_admitted script steps (Resume node g) ≡ true }
{}
