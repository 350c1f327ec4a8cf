// Lists of nodes.
ghost use Rattle.std.specs.Prelude.{◌≡◌, ◌++◌, ◌∷◌, [], nat_lt, filter, OnOk, OnErr};
ghost use Rattle.std.specs.List.{list_all};
ghost use Rattle.gx_dtx.specs.Due.{is_only as is_no_other};
ghost use Rattle.gx_dtx.specs.Nodes.{has as is_one_of, without as all_but, with_node as all_with};

use gx_ids::{Mem, Node, Seq};
use std::alloc::Global;
use std::mem;

/// Whether a node is one of these.
pub fn has(node: Node, nodes: &[Node]) -> bool
    ensures { result ≡ is_one_of node nodes.now }
{
    nodes.iter().any(|other| *other == node)
}

// Whether no other node is one of these.
pub(crate) fn is_only(node: Node, nodes: &[Node]) -> bool
    ensures { result ≡ is_no_other node nodes.now }
{
    nodes.iter().all(|other| *other == node)
}

/// Takes a node out.
pub fn take_out(alloc: Global, node: Node, nodes: &mut Seq<Node>)
    ensures { nodes.new ≡ all_but node nodes.old }
{
    let rest = without(node, mem::replace(nodes, Seq::new(alloc)));
    drop(mem::replace(nodes, rest));
}

fn without(node: Node, nodes: Seq<Node>) -> Seq<Node>
    ensures { result ≡ all_but node nodes }
{
    let mut rest = nodes.into_vec();
    rest.retain(|other| *other != node);
    Seq::from_vec(rest)
}

/// Puts a node among them, in their order.
pub fn put_in(alloc: Global, node: Node, nodes: &mut Seq<Node>) -> Mem<()>
    ensures ok { OnOk result (nodes.new ≡ all_with node nodes.old) }
    ensures err { OnErr result (nodes.new ≡ nodes.old) }
{
    if is_above(node, nodes.as_slice()) {
        nodes.push(node)
    } else if has(node, nodes.as_slice()) {
        Ok(())
    } else {
        put_between(alloc, node, nodes)
    }
}

// Whether a node is above all of these.
fn is_above(node: Node, nodes: &[Node]) -> bool
    ensures { result ≡ list_all (λ j. nat_lt j.0 node.0) nodes.now }
{
    nodes.iter().all(|other| *other < node)
}

// Puts a node between those below and those above it.
fn put_between(alloc: Global, node: Node, nodes: &mut Seq<Node>) -> Mem<()>
    ensures ok { OnOk result (nodes.new ≡ filter (λ j. nat_lt j.0 node.0) nodes.old ++ node ∷ [] ++ filter (λ j. nat_lt node.0 j.0) nodes.old) }
    ensures err { OnErr result (nodes.new ≡ nodes.old) }
{
    let mut all = Vec::new(alloc);
    push_below(node, nodes.as_slice(), &mut all)?;
    all.push(node)?;
    push_above(node, nodes.as_slice(), &mut all)?;
    drop(mem::replace(nodes, Seq::from_vec(all)));
    Ok(())
}

fn push_below(node: Node, nodes: &[Node], below: &mut Vec<Node>) -> Mem<()>
    ensures { OnOk result (below.new.items ≡ below.old.items ++ filter (λ j. nat_lt j.0 node.0) nodes.now) }
{
    for other in nodes {
        if *other < node {
            below.push(*other)?;
        }
    }
    Ok(())
}

fn push_above(node: Node, nodes: &[Node], above: &mut Vec<Node>) -> Mem<()>
    ensures { OnOk result (above.new.items ≡ above.old.items ++ filter (λ j. nat_lt node.0 j.0) nodes.now) }
{
    for other in nodes {
        if *other > node {
            above.push(*other)?;
        }
    }
    Ok(())
}
