// The work before the writing: words, bytes, script, run and text.
ghost use Rattle.std.specs.Prelude.{◌≡◌, false, length, map, true};
ghost use Rattle.gx_outside.specs.Shelves.{AreEmpty};
ghost use Rattle.gx.specs.Top.{AreKept, IsAttempt, IsForThreads};
ghost use Rattle.gx_words.specs.Asked.{AreAsked, IsForSource};
ghost use Rattle.gx_words.specs.declared.options.Options.{Options as AllOptions};
ghost use Rattle.gx_store.specs.Told.{is_over, run_in};

use crate::in_threads::run_in_threads;
use crate::reading::read_script;
use crate::running::run_script;
use gx_outside::{Gate, Journal, Source};
use gx_store::Attempt;
use std::alloc::Global;
use std::sync::Wait;
use std::thread::Threads;

/// Reads or generates a script, runs it by a driver and tells its run, and writes nothing but to the journals. Nothing is read unless the
/// words ask for a script that is read. They ask for no threads.
pub fn make_attempt<S: Source, J: Journal, G: Gate>(
    alloc: Global,
    words: &[String],
    source: &mut S,
    journals: &mut Vec<J>,
    gate: &G,
) -> Attempt
    requires alone { (options : AllOptions) → AreAsked words.now options → options.threads ≡ false }
    requires journals { length journals.old.items ≡ 17 }
    requires empty { AreEmpty (map J.shelf journals.old.items) }
    ensures is { IsAttempt words.now (S.left source.old) (S.left source.new) (S.fault_count source.old) (S.fault_count source.new) result }
    ensures count { length journals.new.items ≡ 17 }
    ensures unread { (IsForSource words.now → ⊥) → source.new ≡ source.old }
    ensures kept { AreKept (run_in result).steps (is_over result) (map J.shelf journals.old.items)
        (map J.shelf journals.new.items) }
{
    match read_script(alloc, words, source) {
        Ok((options, script)) => run_script(alloc, script, options, journals, gate),
        Err(attempt) => attempt,
    }
}

/// Does so in threads, for which the words ask. Where memory runs out in them, no journal comes back.
pub fn make_attempt_in_threads<
    R: Threads + Wait + Sync,
    S: Source,
    J: Journal + Send,
    G: Gate + Sync,
>(
    rt: &R,
    alloc: Global,
    words: &[String],
    source: &mut S,
    journals: &mut Vec<J>,
    gate: &G,
) -> Attempt
    requires threads { (options : AllOptions) → AreAsked words.now options → options.threads ≡ true }
    requires journals { length journals.old.items ≡ 17 }
    requires empty { AreEmpty (map J.shelf journals.old.items) }
    ensures is { IsAttempt words.now (S.left source.old) (S.left source.new) (S.fault_count source.old) (S.fault_count source.new) result }
    ensures count { (IsForThreads words.now → is_over result ≡ true) → length journals.new.items ≡ 17 }
    ensures unread { (IsForSource words.now → ⊥) → source.new ≡ source.old }
    ensures kept { AreKept (run_in result).steps (is_over result) (map J.shelf journals.old.items)
        (map J.shelf journals.new.items) }
{
    match read_script(alloc, words, source) {
        Ok((options, script)) => run_in_threads(rt, alloc, script, options, journals, gate),
        Err(attempt) => attempt,
    }
}
