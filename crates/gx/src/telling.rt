// What is told of a run: its answers and the tables, or one line on generated work, why it stopped, and its trace.
ghost use Rattle.std.specs.Prelude.{◌≡◌, ◌++◌, IfOk, Some};
ghost use Rattle.gx.specs.Top.{IsEndedText, IsStoppedText, SaysSoFar, ended_text as of_ended, traced};
ghost use Rattle.gx_report.specs.Stops.{stuck_lines, turns_spent};

use gx_ids::Mem;
use gx_report::{answers, push_stuck, push_trace, push_turns_spent, summary, text};
use gx_script::Script;
use gx_store::Run;
use gx_tree::KeyedRow;
use gx_waits::LocalGraph;
use gx_words::Options;
use gx_world::World;
use std::alloc::Global;

/// The text of a run that ended.
pub fn ended_text(alloc: Global, world: &World, options: Options) -> Mem<Vec<u8>>
    ensures { IfOk result (λ text. IsEndedText world.now.script options world.now.run text.items) }
{
    let tables = world.final_tables()?;
    text_with(
        alloc,
        world.script(),
        world.run(),
        tables.as_slice(),
        options,
    )
}

/// The text of a run that ended with these tables.
pub fn text_with(
    alloc: Global,
    script: &Script,
    run: &Run,
    tables: &[Vec<KeyedRow>],
    options: Options,
) -> Mem<Vec<u8>>
    ensures { IfOk result (λ text. text.items ≡ of_ended options.work script.now run.now tables.now ++ traced options.trace script.now run.now) }
{
    let said = said_at_end(alloc, script, run, tables, options.work)?;
    with_trace(alloc, said, script, run, options.trace)
}

// Its answers and the tables, or the line on generated work.
fn said_at_end(
    alloc: Global,
    script: &Script,
    run: &Run,
    tables: &[Vec<KeyedRow>],
    work: Option<u64>,
) -> Mem<Vec<u8>>
    ensures { IfOk result (λ text. text.items ≡ of_ended work script.now run.now tables.now) }
{
    match work {
        Some(number) => summary(alloc, number, script, run, tables),
        None => text(alloc, script, run, tables),
    }
}

/// The text of a run that stopped once all turns were taken.
pub fn stopped_text(alloc: Global, world: &World, options: Options) -> Mem<Vec<u8>>
    ensures { IfOk result (λ text. IsStoppedText world.now.script options world.now.run turns_spent text.items) }
{
    let mut text = said_so_far(alloc, world, options.work)?;
    push_turns_spent(&mut text)?;
    with_trace(alloc, text, world.script(), world.run(), options.trace)
}

/// The text of a run that is stuck, with the waits that are: a graph for each node.
pub fn stuck_text(
    alloc: Global,
    world: &World,
    options: Options,
    graphs: &[LocalGraph],
) -> Mem<Vec<u8>>
    ensures { IfOk result (λ text. IsStoppedText world.now.script options world.now.run (stuck_lines graphs.now) text.items) }
{
    let mut text = said_so_far(alloc, world, options.work)?;
    push_stuck(alloc, &mut text, graphs)?;
    with_trace(alloc, text, world.script(), world.run(), options.trace)
}

// Its answers so far, or the line on generated work with the tables as they are by then.
fn said_so_far(alloc: Global, world: &World, work: Option<u64>) -> Mem<Vec<u8>>
    ensures { IfOk result (λ text. SaysSoFar work world.now.script world.now.run text.items) }
{
    match work {
        Some(number) => summary_so_far(alloc, world, number),
        None => answers(alloc, world.script(), world.run()),
    }
}

fn summary_so_far(alloc: Global, world: &World, number: u64) -> Mem<Vec<u8>>
    ensures { IfOk result (λ text. SaysSoFar (Some number) world.now.script world.now.run text.items) }
{
    let tables = world.final_tables()?;
    summary(
        alloc,
        number,
        world.script(),
        world.run(),
        tables.as_slice(),
    )
}

// Adds the run's own text behind another, where it is asked for.
fn with_trace(alloc: Global, text: Vec<u8>, script: &Script, run: &Run, trace: bool) -> Mem<Vec<u8>>
    ensures { IfOk result (λ all. all.items ≡ text.items ++ traced trace script.now run.now) }
{
    let mut text = text;
    if trace {
        push_trace(alloc, &mut text, script, run)?;
    }
    Ok(text)
}
