// What a command does by a mark, and whether one under way may do it.

ghost use Rattle.gx_legal.specs.Own.{IsOwn};

use crate::command::RowAt;
use gx_ids::{Cid, Gxid, Rid};
use gx_store::Mark;
use gx_tree::Row;

/// What a mark says that a command did: it took its snapshot, wrote, skipped or faulted; or wrote, skipped or faulted late, behind the abort
/// of its transaction.
#[derive(Clone, Copy)]
pub enum Act<'a> {
    Snap,
    Write { row: RowAt, image: &'a Option<Row> },
    Skip(Rid),
    Fault { rid: Rid, image: &'a Option<Row> },
    LateWrite { row: RowAt, image: &'a Option<Row> },
    LateSkip,
    LateFault,
}

/// What a command of a number in a transaction did behind these marks, and those of them that tell of the transaction's rows.
#[derive(Clone, Copy)]
pub struct Deed<'a> {
    pub gxid: Gxid,
    pub cid: Cid,
    pub marks: &'a [Mark],
    pub own: &'a [Mark],
    pub act: Act<'a>,
    pub ghost apart: { IsOwn gxid marks.now own.now },
}
