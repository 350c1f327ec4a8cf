// Nodes apart: from the words and the source to the verdict on the run that the nodes' histories make.
ghost use Rattle.std.specs.Prelude.{◌≡◌, ◌≤◌, [], IfOk, None, length, map, true};
ghost use Rattle.gx_apart.specs.Made.{IsMade};
ghost use Rattle.gx_outside.specs.Memory.{shelf_of};
ghost use Rattle.gx_outside.specs.Shelves.{AreEmpty};
ghost use Rattle.gx_store.specs.Language.{IsScript};
ghost use Rattle.gx_store.specs.Points.{marks_in};
ghost use Rattle.gx_store.specs.View.{AreFinalFrom};
ghost use Rattle.gx_judge.specs.Apart.{IsAnsweredApart, IsApartOfBytes, IsJudgedApart};
ghost use Rattle.gx_words.specs.Asked.{limit};

use crate::apart_telling::text_apart;
use crate::journals::{new_journal, new_journals};
use crate::verdict::Verdict;
use gx_apart::{ApartRun, run_apart};
use gx_ids::Mem;
use gx_legal::legal;
use gx_outside::{JournalMem, PassGate, Source};
use gx_script::Script;
use gx_sql::{Refusal, parse_script};
use gx_threads::run_threads;
use gx_words::{NoBytes, Options, WordsFault, read_words, script_bytes};
use std::alloc::Global;
use std::sync::{Arc, Wait};
use std::thread::Threads;

/// Reads or generates the script that the words ask for, runs it on nodes apart, in threads where they ask for these, and judges the run,
/// which is told before the verdict. No driver of nodes apart has a seed.
pub fn judge_apart<R: Threads + Wait + Sync, S: Source>(
    rt: &R,
    alloc: Global,
    words: &[String],
    source: &mut S,
) -> Verdict
    ensures { IsAnsweredApart words.now (S.left source.old) (S.left source.new) (S.fault_count source.old) (S.fault_count source.new) result }
{
    let options = match read_words(alloc, words) {
        Ok(options) => options,
        Err(WordsFault::Usage) => return Verdict::NoRun,
        Err(WordsFault::OutOfMemory) => return Verdict::OutOfMemory,
    };
    if options.seed.is_some() {
        return Verdict::NoRun;
    }
    match script_bytes(alloc, options, source) {
        Ok(bytes) => judge_bytes_apart(rt, alloc, options, bytes.as_slice()),
        Err(NoBytes::OutOfMemory) => Verdict::OutOfMemory,
        Err(NoBytes::ReadFault) => Verdict::NoRun,
        Err(NoBytes::TooLarge) => Verdict::NoRun,
    }
}

// What is said of these bytes.
fn judge_bytes_apart<R: Threads + Wait + Sync>(
    rt: &R,
    alloc: Global,
    options: Options,
    bytes: &[u8],
) -> Verdict
    requires { length bytes.now ≤ limit }
    ensures { IsApartOfBytes bytes.now options result }
{
    match parse_script(alloc, bytes) {
        Ok(script) => match judge_script_apart(rt, alloc, options, script) {
            Ok(verdict) => verdict,
            Err(_) => Verdict::OutOfMemory,
        },
        Err(Refusal::OutOfMemory) => Verdict::OutOfMemory,
        Err(_) => Verdict::NoRun,
    }
}

// Runs the script on nodes apart, and judges the run.
fn judge_script_apart<R: Threads + Wait + Sync>(
    rt: &R,
    alloc: Global,
    options: Options,
    script: Script,
) -> Mem<Verdict>
    requires { IsScript script }
    ensures { IfOk result (IsJudgedApart script options) }
{
    let script = Arc::new(alloc, script)?;
    let apart = made(rt, alloc, &script, options)?;
    let is_legal = legal(alloc, &script, &apart.run)?;
    let text = text_apart(
        alloc,
        &script,
        options,
        &apart.run,
        apart.is_whole,
        apart.tables.as_slice(),
    )?;
    if is_legal {
        Ok(Verdict::Legal(text))
    } else {
        Ok(Verdict::NotLegal(text))
    }
}

// The run of the script: by threads, or else for so many turns at most as are asked for.
fn made<R: Threads + Wait + Sync>(
    rt: &R,
    alloc: Global,
    script: &Arc<Script, Global>,
    options: Options,
) -> Mem<ApartRun<JournalMem>>
    requires { IsScript script.now.value }
    ensures made { IfOk result (λ apart. IsMade script.now.value apart.run.steps apart.is_whole (map shelf_of apart.journals.items)) }
    ensures all { IfOk result (λ apart. length apart.tables.items ≡ length script.now.value.tables) }
    ensures rows { IfOk result (λ apart. AreFinalFrom 0 (marks_in apart.run.steps) apart.tables.items) }
    ensures threads { IfOk result (λ apart. options.threads ≡ true → apart.is_whole ≡ true) }
{
    let journal = new_journal(alloc)?;
    let journals = new_journals(alloc, script.segments)?;
    if options.threads {
        return made_in_threads(rt, alloc, script, journal, journals);
    }
    run_apart(
        rt,
        alloc,
        script,
        journal,
        journals,
        &PassGate,
        options.turns,
    )
}

// Threads end only once the run is whole.
fn made_in_threads<R: Threads + Wait + Sync>(
    rt: &R,
    alloc: Global,
    script: &Arc<Script, Global>,
    journal: JournalMem,
    journals: Vec<JournalMem>,
) -> Mem<ApartRun<JournalMem>>
    requires language { IsScript script.now.value }
    requires count { length journals.items ≡ script.now.value.segments }
    requires blank { (shelf_of journal).items ≡ [] }
    requires blanks { AreEmpty (map shelf_of journals.items) }
    ensures made { IfOk result (λ apart. IsMade script.now.value apart.run.steps apart.is_whole (map shelf_of apart.journals.items)) }
    ensures all { IfOk result (λ apart. length apart.tables.items ≡ length script.now.value.tables) }
    ensures rows { IfOk result (λ apart. AreFinalFrom 0 (marks_in apart.run.steps) apart.tables.items) }
    ensures whole { IfOk result (λ apart. apart.is_whole ≡ true) }
{
    let shared = script.clone()?;
    let end = run_threads(rt, alloc, shared, journal, journals, &PassGate)?;
    Ok(ApartRun {
        run: end.run,
        is_whole: true,
        tables: end.tables,
        journals: end.journals,
    })
}
