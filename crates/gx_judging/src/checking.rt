// Whether a trace is legal.
ghost use Rattle.std.specs.Prelude.{◌↔◌, [], IfOk, IsTrue};
ghost use Rattle.gx_store.specs.Language.{IsScript};
ghost use Rattle.gx_store.specs.Ordered.{AreOrdered};
ghost use Rattle.gx_store.specs.Points.{marks_in};
ghost use Rattle.gx_judging.specs.Filled.{filled};
ghost use Rattle.gx_judging.specs.Judged.{IsJudged};
ghost use Rattle.gx_judging.specs.Parts.{AreLegalIn};
ghost use Rattle.gx_judging.specs.Shown.{AreAnswered, AreTablesShown};
ghost use Rattle.gx_judging.specs.Victims.{NameRightly};
ghost use Rattle.gx_judging.specs.Verdicts.{AreStatements, IsVerdictOf, Meets};

use crate::answered::are_answered;
use crate::answers::Answers;
use crate::filling::fill;
use crate::parts::{Part, are_legal_in};
use crate::tables::are_tables_shown;
use crate::verdicts::{Definition, Verdict};
use crate::victims::name_rightly;
use gx_ids::Mem;
use gx_legal::copying::all_marks;
use gx_ordered::are_ordered;
use gx_script::Script;
use gx_store::{Mark, Step};
use gx_trace::Seen;
use std::alloc::Global;

/// A trace of a script with the run that it shows: its answers by session, its steps, and all marks.
#[derive(Clone, Copy)]
pub struct Judged<'a> {
    pub script: &'a Script,
    pub seen: &'a Seen,
    pub answers: &'a Answers,
    pub steps: &'a [Step],
    pub marks: &'a [Mark],
}

fn are_legal(alloc: Global, part: Part, judged: &Judged<'_>) -> Mem<bool>
    requires { IsJudged judged.now }
    ensures { IfOk result (λ are. IsTrue are ↔ AreLegalIn part judged.now.script.now [] (filled judged.now.seen.now)) }
{
    are_legal_in(alloc, part, judged.script, judged.steps, judged.marks)
}

fn are_in_order(alloc: Global, judged: &Judged<'_>) -> Mem<bool>
    requires { IsJudged judged.now }
    ensures { IfOk result (λ are. IsTrue are ↔ AreOrdered judged.now.script.now [] (filled judged.now.seen.now)) }
{
    are_ordered(alloc, judged.script, judged.steps)
}

fn do_name_rightly(alloc: Global, judged: &Judged<'_>) -> Mem<bool>
    requires { IsJudged judged.now }
    ensures { IfOk result (λ do_name. IsTrue do_name ↔ NameRightly judged.now.script.now [] (marks_in (filled judged.now.seen.now))) }
{
    name_rightly(alloc, judged.script, judged.marks)
}

fn has_answers(judged: &Judged<'_>) -> bool
    requires { IsJudged judged.now }
    ensures { IsTrue result ↔ AreAnswered judged.now.script.now judged.now.seen.now.answers (marks_in (filled judged.now.seen.now)) }
{
    are_answered(judged.script, judged.answers, judged.marks)
}

fn has_tables(alloc: Global, judged: &Judged<'_>) -> Mem<bool>
    requires { IsJudged judged.now }
    ensures { IfOk result (λ has. IsTrue has ↔ AreTablesShown judged.now.script.now (marks_in (filled judged.now.seen.now)) judged.now.seen.now.tables) }
{
    are_tables_shown(
        alloc,
        judged.script,
        judged.marks,
        judged.seen.tables.as_slice(),
    )
}

fn are_statements(alloc: Global, judged: &Judged<'_>) -> Mem<bool>
    requires { IsJudged judged.now }
    ensures { IfOk result (λ are. IsTrue are ↔ AreStatements judged.now.script.now judged.now.seen.now) }
{
    if !has_answers(judged) {
        return Ok(false);
    }
    if !has_tables(alloc, judged)? {
        return Ok(false);
    }
    are_legal(alloc, Part::Statements, judged)
}

fn meets(alloc: Global, definition: Definition, judged: &Judged<'_>) -> Mem<bool>
    requires { IsJudged judged.now }
    ensures { IfOk result (λ does. IsTrue does ↔ Meets definition judged.now.script.now judged.now.seen.now) }
{
    match definition {
        Definition::Rows => are_legal(alloc, Part::Rows, judged),
        Definition::Statements => are_statements(alloc, judged),
        Definition::Refusals => are_legal(alloc, Part::Refusals, judged),
        Definition::Order => are_in_order(alloc, judged),
        Definition::Victims => do_name_rightly(alloc, judged),
    }
}

fn judge(alloc: Global, judged: &Judged<'_>) -> Mem<Verdict>
    requires { IsJudged judged.now }
    ensures { IfOk result (IsVerdictOf judged.now.script.now judged.now.seen.now) }
{
    if !meets(alloc, Definition::Rows, judged)? {
        return Ok(Verdict::NotLegal(Definition::Rows));
    }
    if !meets(alloc, Definition::Statements, judged)? {
        return Ok(Verdict::NotLegal(Definition::Statements));
    }
    if !meets(alloc, Definition::Refusals, judged)? {
        return Ok(Verdict::NotLegal(Definition::Refusals));
    }
    if !meets(alloc, Definition::Order, judged)? {
        return Ok(Verdict::NotLegal(Definition::Order));
    }
    if !meets(alloc, Definition::Victims, judged)? {
        return Ok(Verdict::NotLegal(Definition::Victims));
    }
    Ok(Verdict::Legal)
}

/// Whether the trace that was read is legal: the definitions are tried in their order, and the first that isn't met is told.
pub fn check(alloc: Global, script: &Script, seen: &Seen) -> Mem<Verdict>
    requires { IsScript script.now }
    ensures { IfOk result (IsVerdictOf script.now seen.now) }
{
    let answers = Answers::of(alloc, seen.answers.as_slice())?;
    let steps = fill(alloc, &answers, seen)?;
    let marks = all_marks(alloc, steps.as_slice())?;
    let judged = Judged {
        script,
        seen,
        answers: &answers,
        steps: steps.as_slice(),
        marks: marks.as_slice(),
    };
    judge(alloc, &judged)
}
