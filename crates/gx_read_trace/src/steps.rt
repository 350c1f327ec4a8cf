// The steps of a run, each with its marks.
ghost use Rattle.std.specs.Prelude.{◌≡◌, ◌<◌, true, OnOk};
ghost use Rattle.gx_read_trace.specs.GoingOn as of;
ghost use Rattle.gx_read_trace.specs.Rests.{begins_with_blanks, lines_left};

use crate::fault::TraceFault;
use crate::lines::Lines;
use crate::whole_lines::{take_mark_line, take_moment, take_run_head};
use gx_ids::{Node, Seq, Shared};
use gx_script::Script;
use gx_store::Mark;
use gx_trace::{SeenMark, SeenStep};
use gx_trace_lines::MarkLine;
use gx_waits::{Edge, LocalGraph, Verdict};
use std::alloc::Global;

// The second line of a recheck.
#[tactic(auto, using(crate::proofs::Stepping::verdict_fails, crate::proofs::Stepping::verdict_ended, crate::proofs::Onward::taken_shorter))]
fn read_verdict<'a>(
    alloc: Global,
    script: &Script,
    lines: &mut Lines<'a>,
    round: u64,
) -> Result<Verdict, TraceFault>
    ensures read { of.ReadsVerdict script.now round lines.old lines.new result }
    ensures shorter { OnOk result (lines_left lines.new < lines_left lines.old) }
{
    let line = take_mark_line(alloc, lines, script)?;
    match line {
        MarkLine::Ended(ended, verdict) => {
            if ended == round {
                Ok(verdict)
            } else {
                drop(verdict);
                Err(lines.fault())
            }
        }
        MarkLine::Alone(mark) => {
            drop(mark);
            Err(lines.fault())
        }
        MarkLine::Own(_round, edges) => {
            drop(edges);
            Err(lines.fault())
        }
    }
}

// The mark of a recheck, behind its first line.
#[tactic(auto, using(crate::proofs::Stepping::recheck_ok, crate::proofs::Stepping::recheck_fails))]
fn read_recheck<'a>(
    alloc: Global,
    script: &Script,
    lines: &mut Lines<'a>,
    round: u64,
    edges: Seq<Edge>,
) -> Result<SeenMark, TraceFault>
    ensures read { of.ReadsRecheck script.now round edges lines.old lines.new result }
    ensures shorter { OnOk result (lines_left lines.new < lines_left lines.old) }
{
    let node = Node(0);
    let own = Shared::new(alloc, LocalGraph { node, edges })?;
    let verdict = read_verdict(alloc, script, lines, round)?;
    Ok(SeenMark::Whole(Mark::Recheck {
        round,
        own,
        verdict,
    }))
}

#[tactic(auto, using(crate::proofs::Stepping::mark_fails, crate::proofs::Stepping::mark_alone, crate::proofs::Stepping::mark_own, crate::proofs::Stepping::mark_bad, crate::proofs::Onward::taken_shorter))]
fn read_mark<'a>(
    alloc: Global,
    script: &Script,
    lines: &mut Lines<'a>,
) -> Result<SeenMark, TraceFault>
    requires { begins_with_blanks lines.old ≡ true }
    ensures read { of.ReadsMark script.now lines.old lines.new result }
    ensures shorter { OnOk result (lines_left lines.new < lines_left lines.old) }
{
    let line = take_mark_line(alloc, lines, script)?;
    match line {
        MarkLine::Alone(mark) => Ok(mark),
        MarkLine::Own(round, edges) => read_recheck(alloc, script, lines, round, edges),
        MarkLine::Ended(_round, verdict) => {
            drop(verdict);
            Err(lines.fault())
        }
    }
}

// The marks of a step, up to a line that doesn't begin with blanks.
#[tactic(auto, using(crate::proofs::Stepping::marks_more, crate::proofs::Stepping::marks_fail, crate::proofs::Stepping::marks_end))]
fn read_marks<'a>(
    alloc: Global,
    script: &Script,
    lines: &mut Lines<'a>,
) -> Result<Seq<SeenMark>, TraceFault>
    ensures { of.ReadsMarks script.now lines.old lines.new result }
{
    let mut marks = Seq::new(alloc);
    while lines.begins_with_blanks() {
        let mark = read_mark(alloc, script, lines)?;
        marks.push(mark)?;
    }
    Ok(marks)
}

#[tactic(auto, using(crate::proofs::Stepping::step_fails, crate::proofs::Stepping::step_ok, crate::proofs::Stepping::step_marks_fail))]
fn read_step<'a>(
    alloc: Global,
    script: &Script,
    lines: &mut Lines<'a>,
) -> Result<SeenStep, TraceFault>
    ensures { of.ReadsStep script.now lines.old lines.new result }
{
    let moment = take_moment(lines, script)?;
    let marks = read_marks(alloc, script, lines)?;
    Ok(SeenStep {
        stamp: moment.stamp,
        event: moment.event,
        marks,
    })
}

/// Reads all steps, with the line above them.
#[tactic(auto, using(crate::proofs::Stepping::steps_start, crate::proofs::Stepping::run_fails, crate::proofs::Stepping::steps_more, crate::proofs::Stepping::steps_fail, crate::proofs::Stepping::steps_end))]
pub fn read_steps<'a>(
    alloc: Global,
    script: &Script,
    lines: &mut Lines<'a>,
) -> Result<Seq<SeenStep>, TraceFault>
    ensures { of.ReadsSteps script.now lines.old lines.new result }
{
    let count = take_run_head(lines)?;
    let mut steps = Seq::new(alloc);
    for _step in 0..count {
        let step = read_step(alloc, script, lines)?;
        steps.push(step)?;
    }
    Ok(steps)
}
