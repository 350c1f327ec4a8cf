// A network goes on by one event.
ghost use Rattle.std.specs.Prelude.{◌≡◌, ◌≤◌, ◌<◌, ◌^◌, length, map, true, false, Some, OnOk, OnErr};
ghost use Rattle.gx_law_order.specs.Journals.{item_at};
ghost use Rattle.gx_law_runs.specs.Replays.{is_admitted, world_behind};
ghost use Rattle.gx_rules.specs.Machine.{at_node, can_here, node_of};
ghost use Rattle.gx_rules.specs.Sending.{heard_in};
ghost use Rattle.gx_world.specs.Coming.{Moment};
ghost use Rattle.gx_world.specs.Turns.{IsNext};
ghost use Rattle.gx_world.specs.Networks.{HasDone, HasMoved, HasRoom, IsNetwork, Stands};
ghost use Rattle.gx_world.specs.Worlds.{AreLaterBy, kept_for};

use crate::arriving::event_node;
use crate::network::Network;
use crate::turning::{coord_turn, seg_turn};
use gx_ids::{Mem, Node};
use gx_outside::{Gate, Journal};
use gx_store::Event;

// Does an event that may happen.
pub(crate) fn do_event<J: Journal, G: Gate>(
    network: &mut Network,
    event: Event,
    journals: &mut [J],
    gate: &G,
) -> Mem<()>
    requires is { IsNetwork network.old }
    requires usable { network.old.spent ≡ false }
    requires admitted { is_admitted network.old.script.value network.old.run.steps event ≡ true }
    requires journals { length journals.old ≡ 17 }
    requires room { length network.old.run.steps < 2 ^ 40 }
    ensures done { OnOk result (HasDone network.old network.new event (map J.shelf journals.old) (map J.shelf journals.new)) }
    ensures later { AreLaterBy (node_of event) (kept_for network.old.script.value (world_behind network.old.script.value network.old.run.steps) event) (map J.shelf journals.old) (map J.shelf journals.new) }
    ensures script { network.new.script ≡ network.old.script }
    ensures err { OnErr result (network.new.run ≡ network.old.run) }
{
    turn(network, event, event_node(event), journals, gate)
}

// A node does an event that is admitted there.
fn turn<J: Journal, G: Gate>(
    network: &mut Network,
    event: Event,
    at: Node,
    journals: &mut [J],
    gate: &G,
) -> Mem<()>
    ghost moment: { Moment }
    requires stands { Stands network.old.script.value moment.w network.old }
    requires there { at_node moment.w event ≡ Some moment.here }
    requires few { at.0 ≤ network.old.script.value.segments }
    requires admitted { can_here network.old.script.value moment.w at (Some moment.here) ≡ true }
    requires next { IsNext network.old.script.value moment.w event at moment.here }
    requires heard { heard_in moment.here < 2 ^ 62 }
    requires journals { length journals.old ≡ 17 }
    requires room { HasRoom network.old }
    ensures moved { OnOk result (HasMoved network.old.script.value moment.w event at moment.here network.new
        (map J.shelf journals.old) (map J.shelf journals.new)) }
    ensures later { AreLaterBy at (item_at network.old.script.value moment.w at false (Some moment.here)) (map J.shelf journals.old) (map J.shelf journals.new) }
    ensures script { network.new.script ≡ network.old.script }
    ensures err { OnErr result (network.new.run ≡ network.old.run) }
{
    if at.0 == 0 {
        coord_turn(network, event, &mut journals[0])
    } else {
        seg_turn(network, event, at, &mut journals[usize::from(at.0)], gate)
    }
}
