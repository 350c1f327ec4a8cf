// Messages that are sent again.
ghost use Rattle.std.specs.Prelude.{◌≡◌, IfOk, Some, is_some};
ghost use Rattle.gx_rules.specs.AtCoordinator as turns;
ghost use Rattle.gx_dtx.specs.Rules.{awaited_order};
ghost use Rattle.gx_store.specs.Schedule.{is_exec as asks_exec};
ghost use Rattle.gx_coord.specs.Books.{coord_of};
ghost use Rattle.gx_coord.specs.Turns.{has_order, order_in};

use crate::books::find_command;
use crate::coord::Coord;
use gx_dtx::nodes::has;
use gx_ids::{Duplicate, Gxid, Mem, Node};
use gx_msg::{Message, Out};
use std::alloc::Global;

// The order to a node.
fn order_to(alloc: Global, node: Node, orders: &[Out]) -> Mem<Option<Message>>
    ensures { IfOk result (λ found. found ≡ turns.order_to node orders.now) }
{
    for out in orders {
        if out.node == node {
            return Ok(Some(out.message.copy(alloc)?));
        }
    }
    Ok(None)
}

// Whether a command of the transaction awaits the node's answer.
fn is_ordered(coord: &Coord, gxid: Gxid, node: Node) -> bool
    ensures { result ≡ has_order ((coord_of coord.now).works gxid.0).command node }
{
    match find_command(coord, gxid) {
        Some(command) => has(node, command.awaited.as_slice()),
        None => false,
    }
}

fn command_order(alloc: Global, coord: &Coord, gxid: Gxid, node: Node) -> Mem<Option<Message>>
    ensures { IfOk result (λ found. found ≡ order_in ((coord_of coord.now).works gxid.0).command node) }
{
    match find_command(coord, gxid) {
        Some(command) => order_to(alloc, node, command.orders.as_slice()),
        None => Ok(None),
    }
}

fn status_order(coord: &Coord, gxid: Gxid, node: Node) -> Mem<Option<Message>>
    ensures { IfOk result (λ found. found ≡ turns.status_order gxid (awaited_order coord.now.dtx gxid node)) }
{
    match coord.dtx.resend(gxid, node)? {
        Some(out) => Ok(Some(out.message)),
        None => Ok(None),
    }
}

// Whether there is an order to the node.
fn is_order_to(node: Node, orders: &[Out]) -> bool
    ensures { result ≡ is_some (turns.order_to node orders.now) }
{
    for out in orders {
        if out.node == node {
            return true;
        }
    }
    false
}

fn has_command_order(coord: &Coord, gxid: Gxid, node: Node) -> bool
    ensures { result ≡ is_some (order_in ((coord_of coord.now).works gxid.0).command node) }
{
    match find_command(coord, gxid) {
        Some(command) => is_order_to(node, command.orders.as_slice()),
        None => false,
    }
}

fn has_status_order(coord: &Coord, gxid: Gxid, node: Node) -> bool
    ensures { result ≡ is_some (turns.status_order gxid (awaited_order coord.now.dtx gxid node)) }
{
    coord.dtx.is_awaited(gxid, node)
}

// Whether an answer of the node is awaited.
pub(crate) fn is_awaited(coord: &Coord, gxid: Gxid, node: Node) -> bool
    ensures { result ≡ is_some (turns.awaited (coord_of coord.now) gxid node) }
{
    if is_ordered(coord, gxid, node) {
        has_command_order(coord, gxid, node)
    } else {
        has_status_order(coord, gxid, node)
    }
}

// The message to a node whose answer is awaited.
pub(crate) fn awaited(alloc: Global, coord: &Coord, gxid: Gxid, node: Node) -> Mem<Option<Message>>
    ensures { IfOk result (λ found. found ≡ turns.awaited (coord_of coord.now) gxid node) }
{
    if is_ordered(coord, gxid, node) {
        command_order(alloc, coord, gxid, node)
    } else {
        status_order(coord, gxid, node)
    }
}

fn is_exec(message: &Message) -> bool
    ensures { result ≡ asks_exec (Some message.now) }
{
    match message {
        Message::Exec { .. } => true,
        _ => false,
    }
}

// Whether the order to a node is an EXEC.
fn is_exec_to(node: Node, orders: &[Out]) -> bool
    ensures { result ≡ asks_exec (turns.order_to node orders.now) }
{
    for out in orders {
        if out.node == node {
            return is_exec(&out.message);
        }
    }
    false
}

// Whether the command of the transaction has an EXEC for the node.
fn has_exec(coord: &Coord, gxid: Gxid, node: Node) -> bool
    ensures { result ≡ asks_exec (order_in ((coord_of coord.now).works gxid.0).command node) }
{
    match find_command(coord, gxid) {
        Some(command) => is_exec_to(node, command.orders.as_slice()),
        None => false,
    }
}

// Whether the answer of the node that is awaited is that of an EXEC.
pub(crate) fn awaits_exec(coord: &Coord, gxid: Gxid, node: Node) -> bool
    ensures { result ≡ asks_exec (turns.awaited (coord_of coord.now) gxid node) }
{
    is_ordered(coord, gxid, node) && has_exec(coord, gxid, node)
}
