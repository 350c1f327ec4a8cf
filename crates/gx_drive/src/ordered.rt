ghost use Rattle.std.specs.Prelude.{◌≡◌, ◌≤◌, [], false, if◌then◌else◌, IfOk, OnOk, length, map};
ghost use Rattle.gx_store.specs.Schedule.{is_any_unfinished};
ghost use Rattle.gx_outside.specs.Shelves.{AreEmpty};
ghost use Rattle.gx_law_runs.specs.Reached.{IsReached};
ghost use Rattle.gx_law_lone.specs.Victims.{DoLoneRoundsFindVictims};
ghost use Rattle.gx_law_progress.specs.LoneRounds.{AreLoneRoundsFew};
ghost use Rattle.gx_store.specs.Groups.{lets};
ghost use Rattle.gx_store.specs.Language.{IsScript};
ghost use Rattle.gx_store.specs.Whole.{AreInsertsWhole};
ghost use Rattle.gx_drive.specs.Agrees.{IsAgreed};
ghost use Rattle.gx_drive.specs.Ends.{IsEnd, IsStuckWithout};
ghost use Rattle.gx_drive.specs.Ordered.{AreFailuresFew, AreFirst, AreHeld, AreHeldSoFar};
ghost use Rattle.gx_drive.specs.declared.end.End.TheVariants.{Done, Turns};

use crate::agenda::Agenda;
use crate::end::End;
use crate::stuck::stuck;
use crate::turn::{next_event, turn};
use gx_ids::Mem;
use gx_outside::{Gate, Journal};
use gx_world::World;
use std::alloc::Global;

/// Runs a new world by the ordered schedule: it does the first that is enabled, and that the groups let, at each turn, until no session is
/// unfinished, so many turns were taken, or there is none. The journals are those of the coordinator and 16 segments, and hold
/// nothing. Besides the step itself a turn costs the logarithm of what is under way, a move of the answers that are awaited or of the
/// next lines, and a look at each link, node and session until one has what is first.
pub fn run_ordered<J: Journal, G: Gate>(
    alloc: Global,
    world: &mut World,
    journals: &mut [J],
    gate: &G,
    turns: u64,
) -> Mem<End>
    requires new { world.old.run.steps ≡ [] }
    requires usable { world.old.spent ≡ false }
    requires journals { length journals.old ≡ 17 }
    requires empty { AreEmpty (map J.shelf journals.old) }
    requires turns { turns ≤ 10000000 }
    ensures journals { length journals.new ≡ 17 }
    ensures script { world.new.script ≡ world.old.script }
    ensures first { AreFirst world.old.script [] world.new.run.steps }
    ensures within { length world.new.run.steps ≤ turns }
    ensures failures { AreFailuresFew world.new.run.steps (map J.shelf journals.old) (map J.shelf journals.new) }
    ensures so_far { AreHeldSoFar world.new.run.steps (map J.shelf journals.new) }
    ensures end { IfOk result (IsEnd world.old.script world.new.run.steps turns) }
    ensures lone { AreInsertsWhole world.old.script.tables world.old.script.lines → DoLoneRoundsFindVictims world.old.script (lets world.old.script) [] world.new.run.steps }
    ensures few { AreInsertsWhole world.old.script.tables world.old.script.lines → AreLoneRoundsFew world.old.script (lets world.old.script) world.new.run.steps }
    ensures off { IfOk result (IsStuckWithout world.old.script) }
    ensures held { OnOk result (AreHeld world.new.run.steps (map J.shelf journals.new)) }
    ensures unspent { OnOk result (world.new.spent ≡ false) }
{
    let mut agenda = Agenda::new(alloc, world.script())?;
    let end = run_firsts(alloc, world, &mut agenda, journals, gate, turns);
    drop(agenda);
    let _run = world.run();
    end
}

// Runs a new world with its agenda.
fn run_firsts<J: Journal, G: Gate>(
    alloc: Global,
    world: &mut World,
    agenda: &mut Agenda,
    journals: &mut [J],
    gate: &G,
    turns: u64,
) -> Mem<End>
    requires new { world.old.run.steps ≡ [] }
    requires usable { world.old.spent ≡ false }
    requires language { IsScript world.old.script }
    requires agreed { IsAgreed world.old.script [] agenda.old }
    requires journals { length journals.old ≡ 17 }
    requires empty { AreEmpty (map J.shelf journals.old) }
    requires turns { turns ≤ 10000000 }
    ensures journals { length journals.new ≡ 17 }
    ensures script { world.new.script ≡ world.old.script }
    ensures first { AreFirst world.old.script [] world.new.run.steps }
    ensures within { length world.new.run.steps ≤ turns }
    ensures failures { AreFailuresFew world.new.run.steps (map J.shelf journals.old) (map J.shelf journals.new) }
    ensures so_far { AreHeldSoFar world.new.run.steps (map J.shelf journals.new) }
    ensures end { IfOk result (IsEnd world.old.script world.new.run.steps turns) }
    ensures off { IfOk result (IsStuckWithout world.old.script) }
    ensures held { OnOk result (AreHeld world.new.run.steps (map J.shelf journals.new)) }
    ensures unspent { OnOk result (world.new.spent ≡ false) }
{
    for _turn in 0..turns {
        if !is_unfinished(world) {
            return Ok(End::Done);
        }
        let Some(event) = next_event(world, agenda) else {
            return stuck(alloc, world, turns);
        };
        turn(world, agenda, journals, gate, event)?;
    }
    Ok(end_of(world))
}

// How a run ended whose turns are spent.
pub(crate) fn end_of(world: &World) -> End
    requires usable { world.now.spent ≡ false }
    requires reached { IsReached world.now.script world.now.run.steps }
    ensures { result ≡ (if is_any_unfinished world.now.script world.now.run.steps then Turns else Done) }
{
    if is_unfinished(world) {
        End::Turns
    } else {
        End::Done
    }
}

// Whether some session has something left.
pub(crate) fn is_unfinished(world: &World) -> bool
    requires usable { world.now.spent ≡ false }
    requires reached { IsReached world.now.script world.now.run.steps }
    ensures { result ≡ is_any_unfinished world.now.script world.now.run.steps }
{
    let _script = world.script();
    world.unfinished()
}
