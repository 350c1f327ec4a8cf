// The call for words that ask for no threads. It returns.
ghost use Rattle.std.specs.Prelude.{◌≡◌, ◌≢◌, false, length, map};
ghost use Rattle.gx_drive.specs.Ordered.{AreFailuresFew, AreHeld, AreHeldSoFar};
ghost use Rattle.gx_outside.specs.Shelves.{AreEmpty};
ghost use Rattle.gx_words.specs.Asked.{AreAsked, IsForSource};
ghost use Rattle.gx_words.specs.declared.options.Options.{Options as AllOptions};
ghost use Rattle.gx.specs.Top.{IsCutShort, IsDone, IsDue, IsOfLanguage, IsPartRun, IsReadFault, IsRefused, IsStatus, IsStopped, IsStuck, IsTooLarge, IsUsage, IsWritten};

use crate::attempt::make_attempt;
use gx_outside::{Gate, Journal, Sink, Source};
use gx_store::{Report, told_of};
use std::alloc::Global;

/// Reads a script from the source, or generates the one of the number that the words give, runs it by a driver, and writes the text of its
/// run to the sink, which is built whole before the first write. The words are those of the command line behind the program's name. The journals are those of the coordinator and of 16
/// segments, by their numbers, and hold nothing. The gate is entered by each slice.
pub fn run_alone<S: Source, K: Sink, J: Journal, G: Gate>(
    alloc: Global,
    words: &[String],
    source: &mut S,
    sink: &mut K,
    journals: &mut Vec<J>,
    gate: &G,
) -> Report
    requires alone { (options : AllOptions) → AreAsked words.now options → options.threads ≡ false }
    requires journals { length journals.old.items ≡ 17 }
    requires empty { AreEmpty (map J.shelf journals.old.items) }
    ensures known { IsStatus result.status }

    // The source was read to its end and its bytes are a script, or those that were generated are; the run is a legal history of one store in which
    // each line of it has its answer, made by the system of nodes in the fixed order or by the seed; and the text of that run and of the tables at its
    // end was written, which for generated work is one line.
    ensures done { result.status ≡ 0 → IsWritten (IsDone words.now (S.left source.old) (S.left source.new) result.run) (K.written sink.old) (K.written sink.new) }

    // The words are not in the language, and the text says what is.
    ensures usage { result.status ≡ 2 → IsWritten (IsUsage words.now result.run) (K.written sink.old) (K.written sink.new) }

    // The words ask for no generated work, the bytes that were read are no script, and the text says why.
    ensures refused { result.status ≡ 3 → IsWritten (IsRefused words.now (S.left source.old) (S.left source.new) result.run) (K.written sink.old) (K.written sink.new) }

    ensures read_fault { result.status ≡ 4 → IsWritten (IsReadFault words.now (S.fault_count source.old) (S.fault_count source.new) result.run) (K.written sink.old) (K.written sink.new) }

    // The sink failed, and a part of a text that was due stands there.
    ensures write_fault { result.status ≡ 5 → IsCutShort (IsDue words.now (S.left source.old) (S.left source.new) (S.fault_count source.old) (S.fault_count source.new) result.run)
        (K.written sink.old) (K.written sink.new) (K.fault_count sink.old) (K.fault_count sink.new) }

    // Nothing was written, source and sink have counted no fault, and what was run is a part of a legal history of the script, within its turns.
    ensures unfailed { result.status ≡ 6 → (S.fault_count source.new ≡ S.fault_count source.old) × (K.fault_count sink.new ≡ K.fault_count sink.old) }
    ensures memory { result.status ≡ 6 → (K.written sink.new ≡ K.written sink.old) × IsPartRun words.now (S.left source.old) (S.left source.new) result.run }

    // The run has as many steps as turns were asked for and a session is unfinished; the text of the answers so far was written, or the line on
    // generated work, and that it stopped.
    ensures stopped { result.status ≡ 7 → IsWritten (IsStopped words.now (S.left source.old) (S.left source.new) result.run) (K.written sink.old) (K.written sink.new) }

    // The detector is off, turns are left and a session is unfinished, but nothing may happen; the text of the answers so far was written,
    // that the run is stuck, and which waits are.
    ensures stuck { result.status ≡ 8 → IsWritten (IsStuck words.now (S.left source.old) (S.left source.new) result.run) (K.written sink.old) (K.written sink.new) }

    ensures too_large { result.status ≡ 9 → IsWritten (IsTooLarge words.now (S.left source.old) (S.left source.new) result.run) (K.written sink.old) (K.written sink.new) }

    // Nothing is read unless the words ask for a script that is read.
    ensures unread { (IsForSource words.now → ⊥) → source.new ≡ source.old }

    // The script that was read keeps the rules and the limits of the language, and its INSERTs have tuples with keys, and no more of them than
    // the limit of bytes.
    ensures language { IsOfLanguage (S.left source.old) (S.left source.new) }

    // All journals come back.
    ensures count { length journals.new.items ≡ 17 }

    // Each journal holds the items that the marks of its node stand for, and nothing else.
    ensures held { result.status ≢ 6 → AreHeld result.run.steps (map J.shelf journals.new.items) }

    // At any status a journal has at most one item more.
    ensures so_far { AreHeldSoFar result.run.steps (map J.shelf journals.new.items) }

    // No node has more JournalFailed marks than its journal's count has risen.
    ensures failures { AreFailuresFew result.run.steps (map J.shelf journals.old.items) (map J.shelf journals.new.items) }
{
    let attempt = make_attempt(alloc, words, source, journals, gate);
    told_of(alloc, attempt, sink)
}
