// A command that changes rows of a table.
ghost use Rattle.std.specs.Prelude.{◌≡◌};
ghost use Rattle.gx_slices.specs.Changing.{slice_in};

use crate::changing::Writer;
use gx_dsnap::Snapshot;
use gx_ids::{Seq, Shared};
use gx_tree::{Assign, Cond, Level, Slice};

/// UPDATE by its SET list, or DELETE, which has none.
#[derive(Drop)]
pub(crate) struct Change {
    pub writer: Writer,
    pub level: Level,
    pub snapshot: Snapshot,
    pub set: Option<Shared<Seq<Assign>>>,
    pub cond: Shared<Option<Cond>>,
}

// The slice of the command.
pub(crate) fn slice_of(
    writer: Writer,
    set: Option<Shared<Seq<Assign>>>,
    cond: Shared<Option<Cond>>,
) -> Slice
    ensures { result ≡ slice_in writer.table set cond }
{
    match set {
        Some(assigns) => Slice::Update(writer.table, assigns, cond),
        None => Slice::Delete(writer.table, cond),
    }
}
