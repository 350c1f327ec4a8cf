// Rounds of the detector: whose graphs are awaited, and whether the next round begins.
ghost use Rattle.std.specs.Prelude.{◌≡◌, ◌∷◌, [], false, not, None, IfSome, if◌then◌else◌};
ghost use Rattle.std.specs.Option.{option_to_list};
ghost use Rattle.gx_agenda.specs.Awaited.{IsFirstGraph};
ghost use Rattle.gx_law_runs.specs.Reached.{IsReached};
ghost use Rattle.gx_law_runs.specs.Replays.{is_admitted};
ghost use Rattle.gx_store.specs.Language.{IsScript};
ghost use Rattle.gx_store.specs.Ordered.{IsSegment};
ghost use Rattle.gx_store.specs.Schedule.{is_graph_awaited, is_round_running, rounds};
ghost use Rattle.gx_store.specs.declared.event.Event.TheVariants.{Resend, Round};
ghost use Rattle.gx_drive.specs.Agrees.{IsDue};

use gx_ids::Node;
use gx_store::Event;
use gx_world::World;

// Whether a round runs. It is asked often, and looks at no node.
pub(crate) fn is_round_running(world: &World) -> bool
    requires usable { world.now.spent ≡ false }
    requires reached { IsReached world.now.script world.now.run.steps }
    ensures { result ≡ is_round_running world.now.run.steps }
{
    if world.script().detector {
        begins_none(world)
    } else {
        false
    }
}

// Whether the next round may not begin.
fn begins_none(world: &World) -> bool
    requires { world.now.spent ≡ false }
    ensures { result ≡ not (is_admitted world.now.script world.now.run.steps Round) }
{
    let next = world.can(&Event::Round);
    !next
}

// Whether a segment's graph is awaited, where it is known whether a round runs.
pub(crate) fn is_graph_awaited(world: &World, segment: Node, running: bool) -> bool
    requires usable { world.now.spent ≡ false }
    requires language { IsScript world.now.script }
    requires reached { IsReached world.now.script world.now.run.steps }
    requires there { IsSegment world.now.script segment }
    requires running { running ≡ is_round_running world.now.run.steps }
    ensures { result ≡ is_graph_awaited world.now.run.steps segment }
{
    if running {
        has_no_graph(world, segment)
    } else {
        false
    }
}

// Whether the graph of a segment hasn't come for the round that runs.
fn has_no_graph(world: &World, segment: Node) -> bool
    requires { world.now.spent ≡ false }
    ensures { result ≡ is_admitted world.now.script world.now.run.steps (Resend segment None) }
{
    world.can(&Event::Resend {
        segment,
        gxid: None,
    })
}

// The first segment whose graph is awaited. While no round runs it looks at no segment.
pub(crate) fn first_graph(world: &World) -> Option<Node>
    requires usable { world.now.spent ≡ false }
    requires language { IsScript world.now.script }
    requires reached { IsReached world.now.script world.now.run.steps }
    ensures { IsFirstGraph world.now.script world.now.run.steps result }
{
    let running = is_round_running(world);
    if running {
        first_awaited(world, running)
    } else {
        None
    }
}

fn first_awaited(world: &World, running: bool) -> Option<Node>
    requires usable { world.now.spent ≡ false }
    requires language { IsScript world.now.script }
    requires reached { IsReached world.now.script world.now.run.steps }
    requires running { running ≡ is_round_running world.now.run.steps }
    ensures { IsFirstGraph world.now.script world.now.run.steps result }
{
    for number in 1..world.script().segments + 1 {
        if is_graph_awaited(world, Node(number), running) {
            return Some(Node(number));
        }
    }
    None
}

// The next round, where somebody waits and none runs.
pub(crate) fn next_round(world: &World) -> Option<Event>
    requires usable { world.now.spent ≡ false }
    requires language { IsScript world.now.script }
    requires reached { IsReached world.now.script world.now.run.steps }
    ensures first { option_to_list result ≡ rounds world.now.script world.now.run.steps }
    ensures due { IfSome result (IsDue world.now.script world.now.run.steps) }
{
    if begins_none(world) {
        None
    } else {
        begun(world.any_wait())
    }
}

fn begun(begins: bool) -> Option<Event>
    ensures is { option_to_list result ≡ (if begins then Round ∷ [] else []) }
    ensures due { IfSome result (λ event. event ≡ Round) }
{
    if begins { Some(Event::Round) } else { None }
}
