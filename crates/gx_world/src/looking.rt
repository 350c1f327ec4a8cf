// What the network tells of its messages and sessions.
ghost use Rattle.std.specs.Prelude.{◌≡◌, ◌<◌, true, false, length, option_copied};
ghost use Rattle.gx_coord.specs.Steps.{IsCoord};
ghost use Rattle.gx_rules.specs.AtCoordinator.{is_unfinished_there as is_left};
ghost use Rattle.gx_ids.specs.declared.ids.SessionId.{SessionId as Id};
ghost use Rattle.gx_law_runs.specs.Replays.{coordinator_after};
ghost use Rattle.gx_rules.specs.Coordinators.{Coord as RuleCoord};
ghost use Rattle.gx_store.specs.Ordered.{sent_in};
ghost use Rattle.gx_store.specs.Schedule.{sent_message};
ghost use Rattle.gx_world.specs.Networks.{IsNetwork};

use crate::network::Network;
use gx_ids::Node;
use gx_msg::Message;

// How many messages were sent on a link.
pub(crate) fn sent(network: &Network, from: Node, to: Node) -> u64
    requires is { IsNetwork network.now }
    ensures { network.now.spent ≡ false → result ≡ sent_in from to network.now.run.steps }
{
    network.letters.count(from, to)
}

// The message of a number on a link.
pub(crate) fn message(network: &Network, from: Node, to: Node, number: u64) -> Option<&Message>
    requires is { IsNetwork network.now }
    ensures { network.now.spent ≡ false → option_copied result ≡ sent_message from to number network.now.run.steps }
{
    let steps = &network.run.steps;
    network.letters.message(steps, from, to, number)
}

// Whether some session has something left.
pub(crate) fn is_unfinished(network: &Network) -> bool
    requires is { IsNetwork network.now }
    requires usable { network.now.spent ≡ false }
    ensures none { result ≡ false → (id : Id) → id.0 < length network.now.script.value.sessions
        → is_left network.now.script.value (coordinator_after network.now.script.value network.now.run.steps) id ≡ false }
    ensures some { result ≡ true → (id : Id) × (id.0 < length network.now.script.value.sessions)
        × (is_left network.now.script.value (coordinator_after network.now.script.value network.now.run.steps) id ≡ true) }
{
    is_unfinished_there(network)
}

fn is_unfinished_there(network: &Network) -> bool
    ghost c: { RuleCoord }
    requires is { IsCoord network.now.coord c }
    ensures none { result ≡ false → (id : Id) → id.0 < length network.now.coord.script.value.sessions → is_left network.now.coord.script.value c id ≡ false }
    ensures some { result ≡ true → (id : Id) × (id.0 < length network.now.coord.script.value.sessions) × (is_left network.now.coord.script.value c id ≡ true) }
{
    network.coord.unfinished()
}
