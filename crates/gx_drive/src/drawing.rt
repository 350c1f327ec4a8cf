// What the words of a seed draw.
ghost use Rattle.std.specs.Prelude.{◌≡◌, ◌%◌, [], true, false, length, slice_get, Some, IfNone, IfOk, IfSome};
ghost use Rattle.gx_law_runs.specs.Reached.{IsReached};
ghost use Rattle.gx_law_runs.specs.Replays.{is_admitted};
ghost use Rattle.gx_store.specs.Groups.{enabled_in};
ghost use Rattle.gx_store.specs.Language.{IsScript};
ghost use Rattle.gx_drive.specs.Agrees.{IsAgreed, IsDue};
ghost use Rattle.gx_drive.specs.Seeded.{seeded};

use crate::agenda::Agenda;
use gx_ids::Mem;
use gx_store::{Event, drawn};
use gx_world::World;
use rand_core::SeedableRng;
use rand_xoshiro::Xoshiro256PlusPlus;
use std::alloc::Global;

// The generator of a seed.
#[tactic(auto, unfolding(crate::specs::Seeded::seeded))]
pub(crate) fn generator_of(seed: u64) -> Xoshiro256PlusPlus
    ensures { result ≡ seeded seed }
{
    Xoshiro256PlusPlus::seed_from_u64(seed)
}

// The event that a word draws among all that is enabled; none where nothing is.
pub(crate) fn drawn_event(
    alloc: Global,
    world: &World,
    agenda: &Agenda,
    word: u64,
) -> Mem<Option<Event>>
    requires usable { world.now.spent ≡ false }
    requires language { IsScript world.now.script }
    requires reached { IsReached world.now.script world.now.run.steps }
    requires agreed { IsAgreed world.now.script world.now.run.steps agenda.now }
    ensures drawn { IfOk result (λ event. IfSome event (λ e. slice_get (enabled_in world.now.script world.now.run.steps) (word % length (enabled_in world.now.script world.now.run.steps)) ≡ Some e)) }
    ensures due { IfOk result (λ event. IfSome event (IsDue world.now.script world.now.run.steps)) }
    ensures admitted { IfOk result (λ event. IfSome event (λ e. is_admitted world.now.script world.now.run.steps e ≡ true)) }
    ensures stuck { IfOk result (λ event. IfNone event (enabled_in world.now.script world.now.run.steps ≡ [])) }
{
    let events = agenda.enabled(alloc, world)?;
    Ok(drawn(events.as_slice(), word))
}
