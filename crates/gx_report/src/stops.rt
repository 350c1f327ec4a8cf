// Why a run stopped before its end.
ghost use Rattle.std.specs.Prelude.{◌≡◌, ◌++◌, if◌then◌else◌, OnOk, codes};
ghost use Rattle.std.specs.List.{flat_map};
ghost use Rattle.gx_report.specs.Stops as of;

use crate::locks::sorted_edges;
use crate::words::push_count_behind;
use gx_ids::{Mem, Node};
use gx_text::push_bytes;
use gx_waits::{Edge, LocalGraph};
use std::alloc::Global;

/// Adds that all turns were taken.
pub fn push_turns_spent(text: &mut Vec<u8>) -> Mem<()>
    ensures { OnOk result (text.new.items ≡ text.old.items ++ of.turns_spent) }
{
    push_bytes(text, b"stopped: turns spent\n")
}

/// Adds that the run is stuck, and the edges of these graphs, which are by node.
pub fn push_stuck(alloc: Global, text: &mut Vec<u8>, graphs: &[LocalGraph]) -> Mem<()>
    ensures { OnOk result (text.new.items ≡ text.old.items ++ of.stuck_lines graphs.now) }
{
    push_waits_behind(alloc, text, b"stopped: stuck\n", graphs)
}

fn push_waits_behind(
    alloc: Global,
    text: &mut Vec<u8>,
    line: &[u8],
    graphs: &[LocalGraph],
) -> Mem<()>
    ensures { OnOk result (text.new.items ≡ text.old.items ++ of.waits_behind line.now graphs.now) }
{
    push_bytes(text, line)?;
    for graph in graphs {
        push_waits(alloc, text, graph)?;
    }
    Ok(())
}

fn push_waits(alloc: Global, text: &mut Vec<u8>, graph: &LocalGraph) -> Mem<()>
    ensures { OnOk result (text.new.items ≡ text.old.items ++ of.wait_lines graph.now) }
{
    let edges = sorted_edges(alloc, graph.edges.as_slice())?;
    push_wait_lines(text, graph.node, edges.as_slice())
}

fn push_wait_lines(text: &mut Vec<u8>, node: Node, edges: &[Edge]) -> Mem<()>
    ensures { OnOk result (text.new.items ≡ text.old.items ++ flat_map (of.wait_line node) edges.now) }
{
    for edge in edges {
        push_wait(text, node, *edge)?;
    }
    Ok(())
}

fn push_wait(text: &mut Vec<u8>, node: Node, edge: Edge) -> Mem<()>
    ensures { OnOk result (text.new.items ≡ text.old.items ++ of.wait_line node edge) }
{
    push_count_behind(text, b"  node ", u128::from(node.0))?;
    push_count_behind(text, b": ", u128::from(edge.waiter.0))?;
    push_count_behind(text, b" waits for ", u128::from(edge.holder.0))?;
    push_kind(text, edge.dotted)
}

fn push_kind(text: &mut Vec<u8>, dotted: bool) -> Mem<()>
    ensures { OnOk result (text.new.items ≡ text.old.items ++ (if dotted then codes " dotted\n" else codes " solid\n")) }
{
    if dotted {
        push_bytes(text, b" dotted\n")
    } else {
        push_bytes(text, b" solid\n")
    }
}
