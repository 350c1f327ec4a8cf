// Running a script in threads, and telling its run.
ghost use Rattle.std.specs.Prelude.{◌≡◌, ◌<◌, ◌++◌, IfOk, false, length, map, true};
ghost use Rattle.gx_outside.specs.Shelves.{AreEmpty};
ghost use Rattle.gx_law_runs.specs.Reached.{IsReached};
ghost use Rattle.gx_store.specs.Groups.{AreStartsLet};
ghost use Rattle.gx_store.specs.Language.{IsScript};
ghost use Rattle.gx_store.specs.Schedule.{is_any_unfinished};
ghost use Rattle.gx_store.specs.Told.{is_over, run_in};
ghost use Rattle.gx_store.specs.Whole.{AreInsertsWhole};
ghost use Rattle.gx.specs.Lent.{IsCut};
ghost use Rattle.gx.specs.Top.{AreKept, AreTables, IsMerged, IsRan};

use crate::telling::text_with;
use gx_ids::Mem;
use gx_outside::{Gate, Journal};
use gx_script::Script;
use gx_store::{Attempt, Run};
use gx_threads::run_threads;
use gx_tree::KeyedRow;
use gx_words::Options;
use std::alloc::Global;
use std::mem;
use std::sync::{Arc, Wait};
use std::thread::Threads;

// What threads have made of a script: the run, the tables behind it, and all journals.
#[derive(Drop)]
struct Made<J: Journal> {
    run: Run,
    tables: Vec<Vec<KeyedRow>>,
    journals: Vec<J>,
}

// Journals that are lent to threads, one for each node, and those that aren't.
#[derive(Drop)]
struct Parts<J: Journal> {
    first: J,
    own: Vec<J>,
    others: Vec<J>,
}

/// Runs a script in threads until no session is unfinished, and tells its run. Where memory runs out in them, no journal comes back.
pub fn run_in_threads<J: Journal + Send, G: Gate + Sync, R: Threads + Wait + Sync>(
    rt: &R,
    alloc: Global,
    script: Script,
    options: Options,
    journals: &mut Vec<J>,
    gate: &G,
) -> Attempt
    requires threads { options.threads ≡ true }
    requires language { IsScript script }
    requires inserts { AreInsertsWhole script.tables script.lines }
    requires journals { length journals.old.items ≡ 17 }
    requires empty { AreEmpty (map J.shelf journals.old.items) }
    ensures ran { IsRan script options result }
    ensures count { is_over result ≡ true → length journals.new.items ≡ 17 }
    ensures kept { AreKept (run_in result).steps (is_over result) (map J.shelf journals.old.items)
        (map J.shelf journals.new.items) }
{
    let lent = mem::replace(journals, Vec::new(alloc));
    let Ok(script) = Arc::new(alloc, script) else {
        return Attempt::OutOfMemory(Run::new(alloc));
    };
    match run_lent(rt, alloc, &script, lent, gate) {
        Ok(made) => {
            *journals = made.journals;
            told(alloc, &script, options, made.run, made.tables)
        }
        Err(_) => Attempt::OutOfMemory(Run::new(alloc)),
    }
}

// Lets threads run it, with the first of these journals: one for each node.
fn run_lent<J: Journal + Send, G: Gate + Sync, R: Threads + Wait + Sync>(
    rt: &R,
    alloc: Global,
    script: &Arc<Script, Global>,
    journals: Vec<J>,
    gate: &G,
) -> Mem<Made<J>>
    requires language { IsScript script.now.value }
    requires journals { length journals.items ≡ 17 }
    requires empty { AreEmpty (map J.shelf journals.items) }
    ensures reached { IfOk result (λ made. IsReached script.now.value made.run.steps) }
    ensures merged { IfOk result (λ made. IsMerged script.now.value made.run) }
    ensures starts { IfOk result (λ made. AreStartsLet script.now.value made.run.steps) }
    ensures done { IfOk result (λ made. is_any_unfinished script.now.value made.run.steps ≡ false) }
    ensures tables { IfOk result (λ made. AreTables script.now.value made.run made.tables.items) }
    ensures count { IfOk result (λ made. length made.journals.items ≡ 17) }
    ensures kept { IfOk result (λ made. AreKept made.run.steps true (map J.shelf journals.items) (map J.shelf made.journals.items)) }
{
    let shared = script.clone()?;
    let lent = cut(journals, usize::from(script.segments))?;
    let end = run_threads(rt, alloc, shared, lent.first, lent.own, gate)?;
    let back = joined(end.journals, lent.others)?;
    Ok(Made {
        run: end.run,
        tables: end.tables,
        journals: back,
    })
}

// Takes the first journal out, and leaves so many behind it.
fn cut<J: Journal>(journals: Vec<J>, count: usize) -> Mem<Parts<J>>
    requires { count < length journals.items }
    ensures { IfOk result (λ cut. IsCut journals.items cut.first cut.own.items cut.others.items count) }
{
    let mut own = journals;
    let others = own.split_off(count + 1)?;
    let first = own.remove(0);
    Ok(Parts { first, own, others })
}

fn joined<J: Journal>(front: Vec<J>, behind: Vec<J>) -> Mem<Vec<J>>
    ensures { IfOk result (λ all. all.items ≡ front.items ++ behind.items) }
{
    let mut all = front;
    let mut rest = behind;
    all.append(&mut rest)?;
    Ok(all)
}

// What a run with these tables is told as.
fn told(
    alloc: Global,
    script: &Script,
    options: Options,
    run: Run,
    tables: Vec<Vec<KeyedRow>>,
) -> Attempt
    requires threads { options.threads ≡ true }
    requires language { IsScript script.now }
    requires inserts { AreInsertsWhole script.now.tables script.now.lines }
    requires reached { IsReached script.now run.steps }
    requires merged { IsMerged script.now run }
    requires starts { AreStartsLet script.now run.steps }
    requires done { is_any_unfinished script.now run.steps ≡ false }
    requires tables { AreTables script.now run tables.items }
    ensures ran { IsRan script.now options result }
    ensures run { run_in result ≡ run }
{
    match text_with(alloc, script, &run, tables.as_slice(), options) {
        Ok(text) => Attempt::Done(run, text),
        Err(_) => Attempt::OutOfMemory(run),
    }
}
