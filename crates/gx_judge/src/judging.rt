// From the words and the source to the verdict.
ghost use Rattle.std.specs.Prelude.{◌≡◌, ◌≤◌, [], false, IfOk, length, map};
ghost use Rattle.gx_outside.specs.Memory.{shelf_of};
ghost use Rattle.gx_outside.specs.Shelves.{AreEmpty};
ghost use Rattle.gx_store.specs.Language.{IsScript};
ghost use Rattle.gx_judge.specs.Judged.{IsAnswered, IsJudged, IsOfBytes};
ghost use Rattle.gx_judge.specs.Refusing.{journals_below};
ghost use Rattle.gx_words.specs.Asked.{limit};

use crate::asked::{Asked, read_asked};
use crate::driving::drive;
use crate::journals::journals_for;
use crate::telling::text_for;
use crate::verdict::Verdict;
use gx_ids::Mem;
use gx_legal::legal;
use gx_outside::{JournalMem, Source};
use gx_script::Script;
use gx_sql::{Refusal, parse_script};
use gx_words::{NoBytes, WordsFault, script_bytes};
use gx_world::World;
use std::alloc::Global;

/// Reads or generates the script that the words ask for, and judges its run; where they ask for an append to be refused, its run is told
/// before the verdict.
pub fn judge<S: Source>(alloc: Global, words: &[String], source: &mut S) -> Verdict
    ensures { IsAnswered words.now (S.left source.old) (S.left source.new) (S.fault_count source.old) (S.fault_count source.new) result }
{
    let asked = match read_asked(alloc, words) {
        Ok(asked) => asked,
        Err(WordsFault::Usage) => return Verdict::NoRun,
        Err(WordsFault::OutOfMemory) => return Verdict::OutOfMemory,
    };
    match script_bytes(alloc, asked.options, source) {
        Ok(bytes) => judge_bytes(alloc, asked, bytes.as_slice()),
        Err(NoBytes::OutOfMemory) => Verdict::OutOfMemory,
        Err(NoBytes::ReadFault) => Verdict::NoRun,
        Err(NoBytes::TooLarge) => Verdict::NoRun,
    }
}

// What is said of these bytes.
fn judge_bytes(alloc: Global, asked: Asked, bytes: &[u8]) -> Verdict
    requires turns { asked.options.turns ≤ 10000000 }
    requires few { length bytes.now ≤ limit }
    ensures { IsOfBytes bytes.now asked result }
{
    match parse_script(alloc, bytes) {
        Ok(script) => match judge_script(alloc, script, asked) {
            Ok(verdict) => verdict,
            Err(_) => Verdict::OutOfMemory,
        },
        Err(Refusal::OutOfMemory) => Verdict::OutOfMemory,
        Err(_) => Verdict::NoRun,
    }
}

// Runs the script, for so many turns at most as are asked for, and judges its run.
fn judge_script(alloc: Global, script: Script, asked: Asked) -> Mem<Verdict>
    requires turns { asked.options.turns ≤ 10000000 }
    requires language { IsScript script }
    ensures { IfOk result (IsJudged script asked) }
{
    let mut world = World::new(alloc, script)?;
    let mut journals = journals_for(alloc, asked.refused)?;
    let verdict = judge_world(alloc, &mut world, asked, journals.as_mut_slice());
    drop(world);
    drop(journals);
    verdict
}

// Drives a new world, for so many turns at most as are asked for, and judges its run.
fn judge_world(
    alloc: Global,
    world: &mut World,
    asked: Asked,
    journals: &mut [JournalMem],
) -> Mem<Verdict>
    requires turns { asked.options.turns ≤ 10000000 }
    requires language { IsScript world.old.script }
    requires new { world.old.run.steps ≡ [] }
    requires usable { world.old.spent ≡ false }
    requires journals { journals.old ≡ journals_below asked.refused 17 }
    requires count { length journals.old ≡ 17 }
    requires empty { AreEmpty (map shelf_of journals.old) }
    ensures { IfOk result (IsJudged world.old.script asked) }
{
    let end = drive(alloc, world, asked.options, journals)?;
    let is_legal = legal(alloc, world.script(), world.run())?;
    let text = text_for(alloc, world, asked, end, journals)?;
    if is_legal {
        Ok(Verdict::Legal(text))
    } else {
        Ok(Verdict::NotLegal(text))
    }
}
