ghost use Rattle.std.specs.Prelude.{◌≡◌, ◌≤◌, [], false, IfOk, OnOk, length, map};
ghost use Rattle.gx_outside.specs.Shelves.{AreEmpty};
ghost use Rattle.gx_law_lone.specs.Victims.{DoLoneRoundsFindVictims};
ghost use Rattle.gx_law_progress.specs.LoneRounds.{AreLoneRoundsFew};
ghost use Rattle.gx_store.specs.Groups.{lets};
ghost use Rattle.gx_store.specs.Language.{IsScript};
ghost use Rattle.gx_store.specs.Whole.{AreInsertsWhole};
ghost use Rattle.gx_drive.specs.Agrees.{IsAgreed};
ghost use Rattle.gx_drive.specs.Ends.{IsEnd, IsStuckWithout};
ghost use Rattle.gx_drive.specs.Ordered.{AreFailuresFew, AreHeld, AreHeldSoFar};
ghost use Rattle.gx_drive.specs.Seeded.{AreDrawn};

use crate::agenda::Agenda;
use crate::drawing::{drawn_event, generator_of};
use crate::end::End;
use crate::ordered::{end_of, is_unfinished};
use crate::stuck::stuck;
use crate::turn::turn;
use gx_ids::Mem;
use gx_outside::{Gate, Journal};
use gx_world::World;
use rand_core::utils::NextWord;
use std::alloc::Global;

/// Runs a new world by a seed, until no session is unfinished, so many turns were taken, or nothing is enabled that the groups let: at each turn
/// it draws a word of the generator and does the event whose place among all that is enabled, and that the groups let, is what is left of
/// the word by their number. The
/// journals are those of the coordinator and 16 segments, and hold nothing. Besides the step itself a turn costs a list of what is
/// enabled: a look at each link, node and session, and what it holds.
pub fn run_seeded<J: Journal, G: Gate>(
    alloc: Global,
    world: &mut World,
    journals: &mut [J],
    gate: &G,
    turns: u64,
    seed: u64,
) -> Mem<End>
    requires new { world.old.run.steps ≡ [] }
    requires usable { world.old.spent ≡ false }
    requires journals { length journals.old ≡ 17 }
    requires empty { AreEmpty (map J.shelf journals.old) }
    requires turns { turns ≤ 10000000 }
    ensures journals { length journals.new ≡ 17 }
    ensures script { world.new.script ≡ world.old.script }
    ensures drawn { AreDrawn world.old.script seed [] world.new.run.steps }
    ensures within { length world.new.run.steps ≤ turns }
    ensures failures { AreFailuresFew world.new.run.steps (map J.shelf journals.old) (map J.shelf journals.new) }
    ensures so_far { AreHeldSoFar world.new.run.steps (map J.shelf journals.new) }
    ensures end { IfOk result (IsEnd world.old.script world.new.run.steps turns) }
    ensures lone { AreInsertsWhole world.old.script.tables world.old.script.lines → DoLoneRoundsFindVictims world.old.script (lets world.old.script) [] world.new.run.steps }
    ensures few { AreInsertsWhole world.old.script.tables world.old.script.lines → AreLoneRoundsFew world.old.script (lets world.old.script) world.new.run.steps }
    ensures off { IfOk result (IsStuckWithout world.old.script) }
    ensures held { OnOk result (AreHeld world.new.run.steps (map J.shelf journals.new)) }
    ensures unspent { OnOk result (world.new.spent ≡ false) }
{
    let mut agenda = Agenda::new(alloc, world.script())?;
    let end = run_drawn(alloc, world, &mut agenda, journals, gate, turns, seed);
    drop(agenda);
    let _run = world.run();
    end
}

// Runs a new world by a seed, with its agenda.
fn run_drawn<J: Journal, G: Gate>(
    alloc: Global,
    world: &mut World,
    agenda: &mut Agenda,
    journals: &mut [J],
    gate: &G,
    turns: u64,
    seed: u64,
) -> Mem<End>
    requires new { world.old.run.steps ≡ [] }
    requires usable { world.old.spent ≡ false }
    requires language { IsScript world.old.script }
    requires agreed { IsAgreed world.old.script [] agenda.old }
    requires journals { length journals.old ≡ 17 }
    requires empty { AreEmpty (map J.shelf journals.old) }
    requires turns { turns ≤ 10000000 }
    ensures journals { length journals.new ≡ 17 }
    ensures script { world.new.script ≡ world.old.script }
    ensures drawn { AreDrawn world.old.script seed [] world.new.run.steps }
    ensures within { length world.new.run.steps ≤ turns }
    ensures failures { AreFailuresFew world.new.run.steps (map J.shelf journals.old) (map J.shelf journals.new) }
    ensures so_far { AreHeldSoFar world.new.run.steps (map J.shelf journals.new) }
    ensures end { IfOk result (IsEnd world.old.script world.new.run.steps turns) }
    ensures off { IfOk result (IsStuckWithout world.old.script) }
    ensures held { OnOk result (AreHeld world.new.run.steps (map J.shelf journals.new)) }
    ensures unspent { OnOk result (world.new.spent ≡ false) }
{
    let mut generator = generator_of(seed);
    for _turn in 0..turns {
        if !is_unfinished(world) {
            return Ok(End::Done);
        }
        let word = generator.next_word();
        let Some(event) = drawn_event(alloc, world, agenda, word)? else {
            return stuck(alloc, world, turns);
        };
        turn(world, agenda, journals, gate, event)?;
    }
    Ok(end_of(world))
}
