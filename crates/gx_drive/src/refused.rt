//! Ends that no run has.
ghost use Rattle.std.specs.Prelude.{List};
ghost use Rattle.gx_script.specs.declared.Script.{Script as OneScript};
ghost use Rattle.gx_store.specs.declared.run.Step.{Step as OneStep};
ghost use Rattle.gx_drive.specs.Refused.{HasEndedLate};
ghost use Rattle.gx_drive.specs.declared.end.End.{End as OneEnd};

/// A run of ten steps is no end at nine turns, whichever end it is said to have.
pub fn turns_bound_runs()
    ensures { (script : OneScript) (steps : List OneStep) (end : OneEnd) → HasEndedLate script steps end → ⊥ }
{}
