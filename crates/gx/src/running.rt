// Running a script that was read, and telling its run.
ghost use Rattle.std.specs.Prelude.{◌≡◌, ◌≤◌, false, IfOk, length, map};
ghost use Rattle.gx_store.specs.Whole.{AreInsertsWhole};
ghost use Rattle.gx_drive.specs.Ends.{IsEnd};
ghost use Rattle.gx_drive.specs.declared.end.End.TheVariants.{Done, Stuck, Turns};
ghost use Rattle.gx_law_runs.specs.Reached.{IsReached};
ghost use Rattle.gx_outside.specs.Shelves.{AreEmpty};
ghost use Rattle.gx_store.specs.Language.{IsScript};
ghost use Rattle.gx.specs.Top.{AreDriven, AreKept, IsRan};
ghost use Rattle.gx_store.specs.Told.{is_over, run_in};

use crate::driving::drive;
use crate::telling::{ended_text, stopped_text, stuck_text};
use gx_drive::End;
use gx_ids::Seq;
use gx_outside::{Gate, Journal};
use gx_script::Script;
use gx_store::{Attempt, Run};
use gx_waits::LocalGraph;
use gx_words::Options;
use gx_world::World;
use std::alloc::Global;
use std::mem;

/// Runs a script by the schedule that is asked for, for so many turns at most as are asked for, and tells its run.
pub fn run_script<J: Journal, G: Gate>(
    alloc: Global,
    script: Script,
    options: Options,
    journals: &mut Vec<J>,
    gate: &G,
) -> Attempt
    requires alone { options.threads ≡ false }
    requires turns { options.turns ≤ 10000000 }
    requires language { IsScript script }
    requires inserts { AreInsertsWhole script.tables script.lines }
    requires journals { length journals.old.items ≡ 17 }
    requires empty { AreEmpty (map J.shelf journals.old.items) }
    ensures ran { IsRan script options result }
    ensures count { length journals.new.items ≡ 17 }
    ensures kept { AreKept (run_in result).steps (is_over result) (map J.shelf journals.old.items)
        (map J.shelf journals.new.items) }
{
    let mut world = match World::new(alloc, script) {
        Ok(world) => world,
        Err(_) => return Attempt::OutOfMemory(Run::new(alloc)),
    };
    match drive(alloc, &mut world, options, journals, gate) {
        Ok(end) => ended(alloc, world, options, end),
        Err(_) => Attempt::OutOfMemory(into_run(world)),
    }
}

// What a run that came to an end is told as.
fn ended(alloc: Global, world: World, options: Options, end: End) -> Attempt
    requires alone { options.threads ≡ false }
    requires usable { world.spent ≡ false }
    requires language { IsScript world.script }
    requires inserts { AreInsertsWhole world.script.tables world.script.lines }
    requires driven { AreDriven options.seed world.script world.run.steps }
    requires ended { IsEnd world.script world.run.steps options.turns end }
    ensures ran { IsRan world.script options result }
    ensures run { run_in result ≡ world.run }
{
    match end {
        End::Done => finished(alloc, world, options),
        End::Turns => stopped(alloc, world, options),
        End::Stuck(graphs) => stuck(alloc, world, options, graphs),
    }
}

fn finished(alloc: Global, world: World, options: Options) -> Attempt
    requires alone { options.threads ≡ false }
    requires usable { world.spent ≡ false }
    requires language { IsScript world.script }
    requires inserts { AreInsertsWhole world.script.tables world.script.lines }
    requires driven { AreDriven options.seed world.script world.run.steps }
    requires ended { IsEnd world.script world.run.steps options.turns Done }
    ensures ran { IsRan world.script options result }
    ensures run { run_in result ≡ world.run }
{
    match ended_text(alloc, &world, options) {
        Ok(text) => Attempt::Done(into_run(world), text),
        Err(_) => Attempt::OutOfMemory(into_run(world)),
    }
}

fn stopped(alloc: Global, world: World, options: Options) -> Attempt
    requires alone { options.threads ≡ false }
    requires language { IsScript world.script }
    requires inserts { AreInsertsWhole world.script.tables world.script.lines }
    requires driven { AreDriven options.seed world.script world.run.steps }
    requires ended { IsEnd world.script world.run.steps options.turns Turns }
    ensures ran { IsRan world.script options result }
    ensures run { run_in result ≡ world.run }
{
    match stopped_text(alloc, &world, options) {
        Ok(text) => Attempt::Stopped(into_run(world), text),
        Err(_) => Attempt::OutOfMemory(into_run(world)),
    }
}

fn stuck(alloc: Global, world: World, options: Options, graphs: Seq<LocalGraph>) -> Attempt
    requires alone { options.threads ≡ false }
    requires language { IsScript world.script }
    requires inserts { AreInsertsWhole world.script.tables world.script.lines }
    requires driven { AreDriven options.seed world.script world.run.steps }
    requires ended { IsEnd world.script world.run.steps options.turns (Stuck graphs) }
    ensures ran { IsRan world.script options result }
    ensures run { run_in result ≡ world.run }
{
    match stuck_text(alloc, &world, options, graphs.as_slice()) {
        Ok(text) => Attempt::Stuck(into_run(world), text),
        Err(_) => Attempt::OutOfMemory(into_run(world)),
    }
}

// A world's run. The process ends soon, and the memory of the nodes with it.
fn into_run(world: World) -> Run
    ensures value { result ≡ world.run }
    ensures reached { IsReached world.script world.run.steps }
{
    let (run, nodes) = world.into_parts();
    mem::forget(nodes);
    run
}
