//! How many rounds of the detector begin where nothing else is left to choose.
ghost use Rattle.std.specs.Prelude.{◌≡◌, ◌≤◌, ◌<◌, Bool, List, [], All, length};
ghost use Rattle.gx_law_lone.specs.Victims.{AreLet, DoLoneRoundsFindVictims, HoldsUpOpenings};
ghost use Rattle.gx_law_progress.specs.LoneRounds.{AreLoneRoundsFew};
ghost use Rattle.gx_law_runs.specs.Reached.{IsReached};
ghost use Rattle.gx_script.specs.declared.Script.{Script};
ghost use Rattle.gx_store.specs.Groups.{lets};
ghost use Rattle.gx_store.specs.Language.{AreLinesNumbered, IsScript};
ghost use Rattle.gx_store.specs.Legal.{AreLegalSteps};
ghost use Rattle.gx_store.specs.Whole.{AreInsertsWhole};
ghost use Rattle.gx_store.specs.declared.event.Event.{Event as OneEvent};
ghost use Rattle.gx_store.specs.declared.run.Step.{Step as OneStep};

/// In a legal history whose lone rounds find victims each that comes to its recheck cancels somebody before the next begins, and nobody is
/// cancelled twice. So there are no more of them than cancelled transactions, nor than transactions that began, nor than lines of the script.
pub fn rounds_that_find_victims_are_few()
    ensures { (script : Script) (lets : List OneStep → OneEvent → Bool) (steps : List OneStep) → AreLinesNumbered [] script.lines → AreLegalSteps script [] steps
        → DoLoneRoundsFindVictims script lets [] steps → AreLoneRoundsFew script lets steps }
{}

/// So it is in every run whose steps do what was enabled, and not held up, where nothing but lines that open a transaction is held up, each
/// until a step that tells of a transaction or of a session.
pub fn lone_rounds_are_few()
    ensures { (script : Script) (lets : List OneStep → OneEvent → Bool) (steps : List OneStep) → 1 ≤ script.segments → AreLinesNumbered [] script.lines
        → All (λ line. line.session.0 < length script.sessions) script.lines → AreInsertsWhole script.tables script.lines
        → HoldsUpOpenings script lets → IsReached script steps → AreLet script lets [] steps → AreLoneRoundsFew script lets steps }
{}

/// And in every run whose steps do what was enabled and what the script's resource groups let.
pub fn lone_rounds_beside_groups_are_few()
    ensures { (script : Script) (steps : List OneStep) → IsScript script → AreInsertsWhole script.tables script.lines
        → IsReached script steps → AreLet script (lets script) [] steps → AreLoneRoundsFew script (lets script) steps }
{}
