// How a run ends that can't go on.
ghost use Rattle.std.specs.Prelude.{◌≡◌, ◌<◌, [], true, IfOk, length};
ghost use Rattle.gx_law_runs.specs.Reached.{IsReached};
ghost use Rattle.gx_law_lone.specs.Victims.{AreLet};
ghost use Rattle.gx_store.specs.Groups.{enabled_in, lets};
ghost use Rattle.gx_store.specs.Language.{IsScript};
ghost use Rattle.gx_store.specs.Schedule.{is_any_unfinished};
ghost use Rattle.gx_drive.specs.Ends.{AreStuckWaits, IsEnd, IsStuckWithout};

use crate::end::End;
use gx_detect::reduce;
use gx_ids::{Mem, Seq};
use gx_waits::LocalGraph;
use gx_world::World;
use std::alloc::Global;

// The end of a run that can't go on, with the waits that are stuck.
pub(crate) fn stuck(alloc: Global, world: &World, _turns: u64) -> Mem<End>
    requires language { IsScript world.now.script }
    requires reached { IsReached world.now.script world.now.run.steps }
    requires let_in { AreLet world.now.script (lets world.now.script) [] world.now.run.steps }
    requires left { length world.now.run.steps < _turns }
    requires unfinished { is_any_unfinished world.now.script world.now.run.steps ≡ true }
    requires nothing { enabled_in world.now.script world.now.run.steps ≡ [] }
    ensures end { IfOk result (IsEnd world.now.script world.now.run.steps _turns) }
    ensures off { IfOk result (IsStuckWithout world.now.script) }
{
    let graphs = stuck_waits(alloc, world)?;
    Ok(End::Stuck(Seq::from_vec(graphs)))
}

// Which waits are stuck, a graph for each node.
fn stuck_waits(alloc: Global, world: &World) -> Mem<Vec<LocalGraph>>
    ensures { IfOk result (λ graphs. AreStuckWaits world.now.script world.now.run.steps graphs.items) }
{
    let graphs = world.graphs()?;
    reduce(alloc, graphs.as_slice())
}
