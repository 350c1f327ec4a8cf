//! How many messages the coordinator sends a segment.
ghost use Rattle.std.specs.Prelude.{◌≤◌, List};
ghost use Rattle.gx_law_orders.specs.Orders.{AreOrdersFew};
ghost use Rattle.gx_law_runs.specs.Reached.{IsReached};
ghost use Rattle.gx_script.specs.declared.Script.{Script};
ghost use Rattle.gx_store.specs.declared.run.Step.{Step as OneStep};

/// In every run, whatever the network does and whichever appends fail, the coordinator sends a segment no more than eight messages for each
/// line that was started and each session that was ended, and one for each message that was sent again, to whichever segment, and each round
/// that began.
pub fn orders_are_few()
    ensures { (script : Script) (steps : List OneStep) → 1 ≤ script.segments → IsReached script steps → AreOrdersFew steps }
{}
