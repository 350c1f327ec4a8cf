//! How often messages are received, and how many a segment sends.
ghost use Rattle.std.specs.Prelude.{◌≤◌, List, []};
ghost use Rattle.gx_law_orders.specs.Deliveries.{AreAnswersFew, AreEnabled, AreReceiptsFew};
ghost use Rattle.gx_law_runs.specs.Reached.{IsReached};
ghost use Rattle.gx_script.specs.declared.Script.{Script};
ghost use Rattle.gx_store.specs.declared.run.Step.{Step as OneStep};

/// Where each step does what was enabled, a node receives at most two messages for each that the other end of the link has sent. So the
/// receipts of a run are bounded by what is sent.
pub fn receipts_are_few()
    ensures { (script : Script) (steps : List OneStep) → AreEnabled script [] steps → AreReceiptsFew steps }
{}

/// In every run, whatever the network does and whichever appends fail, a segment sends the coordinator no more messages than it takes steps:
/// receipts, and slices that go on. Where each step does what was enabled, this and the two other laws bound all messages by lines, ends,
/// messages sent again, rounds, and slices that go on.
pub fn answers_are_few()
    ensures { (script : Script) (steps : List OneStep) → 1 ≤ script.segments → IsReached script steps → AreAnswersFew steps }
{}
