// The parts together, and what a legal trace shows.
ghost use Rattle.std.specs.Prelude.{◌↔◌, [], List};
ghost use Rattle.gx_script.specs.declared.Script.{Script as OneScript};
ghost use Rattle.gx_store.specs.declared.run.Step.{Step as OneStep};
ghost use Rattle.gx_store.specs.Legal.{AreLegalSteps};
ghost use Rattle.gx_store.specs.Ordered.{AreOrdered};
ghost use Rattle.gx_store.specs.Runs.{IsLegalHistory};
ghost use Rattle.gx_trace.specs.declared.seen.Seen.{Seen as OneSeen};
ghost use Rattle.gx_judging.specs.declared.verdicts.Verdict.TheVariants.{Legal};
ghost use Rattle.gx_judging.specs.Filled.{filled};
ghost use Rattle.gx_judging.specs.Verdicts.{IsVerdictOf};
ghost use Rattle.gx_judging.specs.declared.parts.Part.TheVariants.{Refusals, Rows, Statements};
ghost use Rattle.gx_judging.specs.Parts.{AreLegalIn};

/// Steps are a legal history where they are one in each of the three parts.
pub fn histories_have_three_parts()
    ensures { (script : OneScript) (steps : List OneStep) → AreLegalSteps script [] steps ↔ (AreLegalIn Rows script [] steps × AreLegalIn Statements script [] steps × AreLegalIn Refusals script [] steps) }
{}

/// A legal trace shows a legal history, whose messages, marks and clocks are in order.
pub fn legal_traces_show_histories()
    ensures history { (script : OneScript) (shown : OneSeen) → IsVerdictOf script shown Legal → IsLegalHistory script (record { steps = filled shown }) }
    ensures order { (script : OneScript) (shown : OneSeen) → IsVerdictOf script shown Legal → AreOrdered script [] (filled shown) }
{}
