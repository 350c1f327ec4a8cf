// Driving a script by the schedule that is asked for.
ghost use Rattle.std.specs.Prelude.{◌≡◌, ◌≤◌, [], false, IfOk, OnOk, length, map};
ghost use Rattle.gx_store.specs.Whole.{AreInsertsWhole};
ghost use Rattle.gx_outside.specs.Shelves.{AreEmpty};
ghost use Rattle.gx_drive.specs.Ends.{IsEnd};
ghost use Rattle.gx_drive.specs.Ordered.{AreFailuresFew, AreHeld, AreHeldSoFar};
ghost use Rattle.gx.specs.Top.{AreDriven};

use gx_drive::{End, run_ordered, run_seeded};
use gx_ids::Mem;
use gx_outside::{Gate, Journal};
use gx_words::Options;
use gx_world::World;
use std::alloc::Global;

/// Drives a new world, for so many turns at most as are asked for: by the seed that was given, or else in the fixed order.
pub(crate) fn drive<J: Journal, G: Gate>(
    alloc: Global,
    world: &mut World,
    options: Options,
    journals: &mut [J],
    gate: &G,
) -> Mem<End>
    requires new { world.old.run.steps ≡ [] }
    requires usable { world.old.spent ≡ false }
    requires inserts { AreInsertsWhole world.old.script.tables world.old.script.lines }
    requires journals { length journals.old ≡ 17 }
    requires empty { AreEmpty (map J.shelf journals.old) }
    requires turns { options.turns ≤ 10000000 }
    ensures journals { length journals.new ≡ 17 }
    ensures script { world.new.script ≡ world.old.script }
    ensures driven { AreDriven options.seed world.old.script world.new.run.steps }
    ensures within { length world.new.run.steps ≤ options.turns }
    ensures failures { AreFailuresFew world.new.run.steps (map J.shelf journals.old) (map J.shelf journals.new) }
    ensures so_far { AreHeldSoFar world.new.run.steps (map J.shelf journals.new) }
    ensures end { IfOk result (IsEnd world.old.script world.new.run.steps options.turns) }
    ensures held { OnOk result (AreHeld world.new.run.steps (map J.shelf journals.new)) }
    ensures unspent { OnOk result (world.new.spent ≡ false) }
{
    match options.seed {
        Some(seed) => run_seeded(alloc, world, journals, gate, options.turns, seed),
        None => run_ordered(alloc, world, journals, gate, options.turns),
    }
}
