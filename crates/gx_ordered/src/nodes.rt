// At which node a mark stands.
ghost use Rattle.std.specs.Prelude.{◌≡◌, ◌↔◌, All, IsTrue};
ghost use Rattle.std.specs.List.{AllByRecursion};
ghost use Rattle.gx_store.specs.Ordered.{IsAtNode, IsLink, IsSegment};
ghost use Rattle.gx_store.specs.Refusals.{the_coordinator};

use gx_ids::Node;
use gx_script::Script;
use gx_store::Mark;

pub(crate) fn is_coordinator(node: Node) -> bool
    ensures { IsTrue result ↔ (node ≡ the_coordinator) }
{
    node == Node(0)
}

fn is_segment(script: &Script, node: Node) -> bool
    ensures { IsTrue result ↔ IsSegment script.now node }
{
    1 <= node.0 && node.0 <= script.segments
}

pub(crate) fn is_link(script: &Script, from: Node, to: Node) -> bool
    ensures { IsTrue result ↔ IsLink script.now from to }
{
    (is_coordinator(from) && is_segment(script, to))
        || (is_segment(script, from) && is_coordinator(to))
}

fn is_own_segment(script: &Script, node: Node, named: Node) -> bool
    ensures { IsTrue result ↔ ((named ≡ node) × IsSegment script.now node) }
{
    named == node && is_segment(script, node)
}

fn is_at_node(script: &Script, node: Node, mark: &Mark) -> bool
    ensures { IsTrue result ↔ IsAtNode script.now node mark.now }
{
    match mark {
        Mark::Write { node: named, .. }
        | Mark::Prepared { node: named, .. }
        | Mark::LocalCommit { node: named, .. }
        | Mark::Restart { node: named } => is_own_segment(script, node, *named),
        Mark::Hold { node: named, .. }
        | Mark::Wait { node: named, .. }
        | Mark::Release { node: named, .. }
        | Mark::JournalFailed { node: named, .. }
        | Mark::Report { node: named, .. } => *named == node,
        Mark::Sent { to, .. } => is_link(script, node, *to),
        Mark::Skip { .. } => is_segment(script, node),
        Mark::Fault { .. } => true,
        Mark::Start { .. }
        | Mark::Snap { .. }
        | Mark::Commit { .. }
        | Mark::Abort { .. }
        | Mark::Answer { .. }
        | Mark::Decided { .. }
        | Mark::Recheck { .. } => is_coordinator(node),
    }
}

fn each_at_node(script: &Script, node: Node, marks: &[Mark]) -> bool
    ensures { IsTrue result ↔ AllByRecursion (IsAtNode script.now node) marks.now }
{
    for mark in marks {
        if !is_at_node(script, node, mark) {
            return false;
        }
    }
    true
}

/// Whether each of the marks may stand in a step of the node.
pub(crate) fn are_at_node(script: &Script, node: Node, marks: &[Mark]) -> bool
    ensures { IsTrue result ↔ All (IsAtNode script.now node) marks.now }
{
    let are = each_at_node(script, node, marks);
    are
}
