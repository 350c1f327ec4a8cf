// Driving a script by the schedule that is asked for.
ghost use Rattle.std.specs.Prelude.{◌≡◌, ◌≤◌, [], false, IfOk, length, map};
ghost use Rattle.gx_outside.specs.Memory.{shelf_of};
ghost use Rattle.gx_outside.specs.Shelves.{AreEmpty};
ghost use Rattle.gx_drive.specs.Ends.{IsEnd};
ghost use Rattle.gx_drive.specs.Ordered.{AreFailuresFew};
ghost use Rattle.gx_judge.specs.Judged.{AreDriven};

use gx_drive::{End, run_ordered, run_seeded};
use gx_ids::Mem;
use gx_outside::{JournalMem, PassGate};
use gx_words::Options;
use gx_world::World;
use std::alloc::Global;

/// Drives a new world, for so many turns at most as are asked for: by the seed that was given, or else in the fixed order.
pub fn drive(
    alloc: Global,
    world: &mut World,
    options: Options,
    journals: &mut [JournalMem],
) -> Mem<End>
    requires new { world.old.run.steps ≡ [] }
    requires usable { world.old.spent ≡ false }
    requires journals { length journals.old ≡ 17 }
    requires empty { AreEmpty (map shelf_of journals.old) }
    requires turns { options.turns ≤ 10000000 }
    ensures journals { length journals.new ≡ 17 }
    ensures script { world.new.script ≡ world.old.script }
    ensures driven { AreDriven options.seed world.old.script world.new.run.steps }
    ensures failures { AreFailuresFew world.new.run.steps (map shelf_of journals.old) (map shelf_of journals.new) }
    ensures end { IfOk result (IsEnd world.old.script world.new.run.steps options.turns) }
{
    match options.seed {
        Some(seed) => run_seeded(alloc, world, journals, &PassGate, options.turns, seed),
        None => run_ordered(alloc, world, journals, &PassGate, options.turns),
    }
}
