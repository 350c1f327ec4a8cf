// Slices that wait for their table's lock, or at a row.
ghost use Rattle.std.specs.Prelude.{◌≡◌, IfOk, OnOk};
ghost use Rattle.gx_slices.specs.Apart.{IsBack};
ghost use Rattle.gx_slices.specs.Suspensions.{HasSuspended, HasWoken, suspended};

use crate::answering::put_back;
use crate::entries::{put_entry, take_entry};
use crate::held::{Entry, Held};
use gx_ids::{Boxed, Gxid, Mem};
use gx_node::Suspended;
use std::alloc::Global;

// A transaction's slice waits.
fn note_waiting(entry: &mut Entry, waiting: Boxed<Suspended>)
    ensures { entry.new ≡ suspended entry.old waiting }
{
    entry.local.last = waiting.get().cid.0;
    drop(entry.local.answer.take());
    drop(entry.local.suspended.replace(waiting));
}

// Puts back the entry of a transaction whose slice waits from now on.
pub(crate) fn put_suspended(
    alloc: Global,
    held: &mut Held,
    gxid: Gxid,
    mut entry: Entry,
    waiting: Suspended,
) -> Mem<()>
    ensures { OnOk result (IsBack held.old held.new gxid waiting.cid (suspended entry waiting)) }
{
    let cid = waiting.cid;
    match Boxed::new(alloc, waiting) {
        Ok(waiting) => {
            note_waiting(&mut entry, waiting);
            put_back(held, gxid, cid, entry)
        }
        Err(error) => {
            drop(entry);
            Err(error)
        }
    }
}

/// A command has come to a transaction, and its slice waits from now on. It isn't answered yet. After want of memory what is held
/// is spent.
pub fn suspend(alloc: Global, held: &mut Held, gxid: Gxid, waiting: Suspended) -> Mem<()>
    ensures { OnOk result (HasSuspended held.old held.new gxid waiting) }
{
    let entry = take_entry(alloc, &mut held.entries, gxid);
    put_suspended(alloc, held, gxid, entry, waiting)
}

fn opened(waiting: Option<Boxed<Suspended>>) -> Option<Suspended>
    ensures { result ≡ waiting }
{
    match waiting {
        Some(waiting) => Some(waiting.into_inner()),
        None => None,
    }
}

/// The slice of a transaction that has waited, if there is one. It waits no more. After want of memory what is held is spent.
pub fn wake(alloc: Global, held: &mut Held, gxid: Gxid) -> Mem<Option<Suspended>>
    ensures { IfOk result (λ waiting. HasWoken held.old held.new gxid waiting) }
{
    let mut entry = take_entry(alloc, &mut held.entries, gxid);
    let waiting = entry.local.suspended.take();
    match put_entry(&mut held.entries, gxid, entry) {
        Ok(()) => Ok(opened(waiting)),
        Err(error) => {
            drop(waiting);
            Err(error)
        }
    }
}
