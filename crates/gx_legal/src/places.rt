// The snapshots by which a command reads.
ghost use Rattle.std.specs.Prelude.{◌≡◌};
ghost use Rattle.gx_legal.specs.Places.{is_snapshot as is_own_snapshot, serves as is_for};

use crate::command::Command;
use gx_ids::Cid;
use gx_store::Mark;
use gx_tree::Level;

pub(crate) fn is_snapshot(mark: &Mark, command: Command) -> bool
    ensures { result ≡ is_own_snapshot command.level command.gxid command.cid mark.now }
{
    match mark {
        Mark::Snap { gxid, cid, .. } => *gxid == command.gxid && serves(command, *cid),
        _ => false,
    }
}

fn serves(command: Command, cid: Cid) -> bool
    ensures { result ≡ is_for command.level cid command.cid }
{
    match command.level {
        Level::ReadCommitted => cid == command.cid,
        Level::RepeatableRead => true,
    }
}
