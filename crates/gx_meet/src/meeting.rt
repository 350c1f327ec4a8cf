ghost use Rattle.std.specs.Prelude.{◌≡◌, ◌<◌, ◌^◌, IfOk, length, map};
ghost use Rattle.gx_outside.specs.Memory.{shelf_of};
ghost use Rattle.gx_outside.specs.Shelves.{AreEmpty};
ghost use Rattle.gx_store.specs.Language.{IsScript};

use crate::gate::Meet;
use gx_ids::Mem;
use gx_outside::JournalMem;
use gx_script::Script;
use gx_sql::parse_script;
use gx_threads::run_threads;
use std::alloc::Global;
use std::sync::{Arc, Wait};
use std::thread::Threads;

/// What came of a script whose first slices at its two segments wait for each other.
#[derive(Clone, Copy)]
pub enum Met {
    /// They met.
    Together,
    /// One of them waited in vain.
    Missed,
    /// It is no script, or memory ran out.
    NoRun,
}

/// Runs a script in threads, at a gate at which the first slices of both segments wait for each other.
pub fn meet<R: Threads + Wait + Sync>(rt: &R, alloc: Global, bytes: &[u8]) -> Met
    requires { length bytes.now < 2 ^ 32 }
{
    match parse_script(alloc, bytes) {
        Ok(script) => match run_at(rt, alloc, script) {
            Ok(met) => met,
            Err(_) => Met::NoRun,
        },
        Err(_) => Met::NoRun,
    }
}

fn run_at<R: Threads + Wait + Sync>(rt: &R, alloc: Global, script: Script) -> Mem<Met>
    requires { IsScript script }
{
    let gate = Meet::new();
    let shared = Arc::new(alloc, script)?;
    let journal = JournalMem::new(alloc, Vec::new(alloc))?;
    let journals = new_journals(alloc, shared.segments)?;
    let _end = run_threads(rt, alloc, shared, journal, journals, &gate)?;
    Ok(if gate.has_missed() {
        Met::Missed
    } else {
        Met::Together
    })
}

fn new_journals(alloc: Global, segments: u8) -> Mem<Vec<JournalMem>>
    ensures count { IfOk result (λ journals. length journals.items ≡ segments) }
    ensures empty { IfOk result (λ journals. AreEmpty (map shelf_of journals.items)) }
{
    let mut journals = Vec::new(alloc);
    for _before in 0..segments {
        journals.push(JournalMem::new(alloc, Vec::new(alloc))?)?;
    }
    Ok(journals)
}
