ghost use Rattle.std.specs.Prelude.{◌≡◌, IfOk, OnOk, if◌then◌else◌};
ghost use Rattle.gx_waits.specs.Claim.{is_ahead};
ghost use Rattle.gx_waits.specs.Graph.{edges_at, with_hold, with_wait};
ghost use Rattle.gx_locks.specs.Graphs.{with_holds};
ghost use Rattle.gx_locks.specs.Holds.{claims_of};
ghost use Rattle.gx_locks.specs.Book.{IsFiled, claims_in};
ghost use Rattle.gx_locks.specs.Queue.{with_queue};

use crate::book::Book;
use crate::claims::{is_met, is_same_claim};
use crate::hold::Hold;
use gx_ids::{Mem, Node};
use gx_waits::{Claim, LocalGraph};
use std::alloc::Global;

// The edges from the waits to whom they meet.
pub(crate) fn graph_of(alloc: Global, node: Node, waits: &[Claim], book: &Book) -> Mem<LocalGraph>
    requires { IsFiled book.now }
    ensures { IfOk result (λ graph. graph ≡ record { node = node; edges = edges_at waits.now (claims_in book.now) }) }
{
    let mut graph = LocalGraph::new(alloc, node)?;
    for wait in waits {
        add_wait(&mut graph, wait, waits, book)?;
    }
    Ok(graph)
}

// Adds the edges of a wait: to holds, and then to the waits that stand ahead of it.
fn add_wait(graph: &mut LocalGraph, wait: &Claim, waits: &[Claim], book: &Book) -> Mem<()>
    requires { IsFiled book.now }
    ensures node { graph.new.node ≡ graph.old.node }
    ensures ok { OnOk result (graph.new.edges ≡ with_wait (claims_in book.now) waits.now graph.old.edges wait.now) }
{
    add_edges(graph, wait, book.on(wait.object))?;
    add_queue(graph, wait, waits, book)
}

// Adds the edges from a wait to holds.
fn add_edges(graph: &mut LocalGraph, wait: &Claim, holds: &[Hold]) -> Mem<()>
    ensures node { graph.new.node ≡ graph.old.node }
    ensures ok { OnOk result (graph.new.edges ≡ with_holds (claims_of holds.now) graph.old.edges wait.now) }
{
    for hold in holds {
        add_hold(graph, wait, &hold.claim)?;
    }
    Ok(())
}

// Adds the edges from a wait to those that stand ahead of it.
fn add_queue(graph: &mut LocalGraph, wait: &Claim, waits: &[Claim], book: &Book) -> Mem<()>
    requires { IsFiled book.now }
    ensures node { graph.new.node ≡ graph.old.node }
    ensures ok { OnOk result (graph.new.edges ≡ with_queue (claims_in book.now) waits.now graph.old.edges wait.now) }
{
    for other in waits {
        if is_same_claim(wait, other) {
            return Ok(());
        }
        add_ahead(graph, wait, other, book)?;
    }
    Ok(())
}

// Adds the edge from a wait to one that came before it, where that holds it up.
fn add_ahead(graph: &mut LocalGraph, wait: &Claim, other: &Claim, book: &Book) -> Mem<()>
    requires { IsFiled book.now }
    ensures node { graph.new.node ≡ graph.old.node }
    ensures ok { OnOk result (graph.new.edges ≡ (if is_ahead (claims_in book.now) wait.now other.now then with_hold wait.now graph.old.edges other.now else graph.old.edges)) }
{
    if book.holds_up(other, wait) {
        return graph.add(wait.edge_to(other));
    }
    Ok(())
}

// Adds the edge from a wait to a hold, where it meets that.
fn add_hold(graph: &mut LocalGraph, wait: &Claim, hold: &Claim) -> Mem<()>
    ensures node { graph.new.node ≡ graph.old.node }
    ensures ok { OnOk result (graph.new.edges ≡ with_hold wait.now graph.old.edges hold.now) }
{
    if is_met(wait, hold) {
        return graph.add(wait.edge_to(hold));
    }
    Ok(())
}
