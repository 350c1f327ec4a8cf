// The newest version of a row.
ghost use Rattle.std.specs.Prelude.{◌≡◌, ◌≤◌, IfOk, Some};
ghost use Rattle.std.specs.Option.{ForSome};
ghost use Rattle.gx_slices.specs.Changing.{awaited_in, overtaker_in};

use crate::change::Change;
use crate::changing::own_lock;
use crate::store::LocalStore;
use gx_ids::{Cid, Gxid, Mem};
use gx_locks::LockTable;
use gx_node::is_held;
use gx_rows::LocalStatus;
use gx_tree::Row;

/// The newest version of a row that isn't aborted: who wrote it, where that isn't below the horizon, by which command, and the row
/// that it left; none is the row gone.
#[derive(Drop)]
pub(crate) struct Newest {
    pub writer: Option<Gxid>,
    pub cid: Cid,
    pub image: Option<Row>,
}

// Whom a command awaits at a row: who has written it, unless that is its own transaction or has ended here, where it doesn't hold
// itself any more.
pub(crate) fn awaited(locks: &LockTable, gxid: Gxid, writer: Option<Gxid>) -> Mem<Option<Gxid>>
    ensures { IfOk result (λ awaited. awaited ≡ awaited_in locks.now.holds gxid writer) }
{
    match writer {
        Some(writer) => awaited_writer(locks, gxid, writer),
        None => Ok(None),
    }
}

fn awaited_writer(locks: &LockTable, gxid: Gxid, writer: Gxid) -> Mem<Option<Gxid>>
    ensures { IfOk result (λ awaited. awaited ≡ awaited_in locks.now.holds gxid (Some writer)) }
{
    if writer == gxid {
        return Ok(None);
    }
    let held = is_held(locks, &own_lock(writer))?;
    Ok(if held { Some(writer) } else { None })
}

// Who has changed the row since the command's snapshot, if somebody has.
pub(crate) fn overtaker(
    change: &Change,
    store: &LocalStore,
    writer: Option<Gxid>,
    cid: Cid,
) -> Option<Gxid>
    requires { ForSome writer (λ g. store.now.horizon.0 ≤ g.0) }
    ensures { result ≡ overtaker_in store.now change.now.snapshot change.now.writer.gxid change.now.writer.cid writer cid }
{
    let writer = writer?;
    let counts = if writer == change.writer.gxid {
        cid < change.writer.cid
    } else {
        store.status(writer) == Some(LocalStatus::Committed) && change.snapshot.sees(writer)
    };
    if counts { None } else { Some(writer) }
}
