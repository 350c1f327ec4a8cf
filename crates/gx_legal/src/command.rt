use gx_ids::{Cid, Gxid, Node, Rid, Table};
use gx_tree::{Cond, Level};

/// A command of a transaction, by its number there, and the level at which it runs.
#[derive(Clone, Copy)]
pub struct Command {
    pub level: Level,
    pub gxid: Gxid,
    pub cid: Cid,
}

/// Where a row is written: its node and its table.
#[derive(Clone, Copy)]
pub struct RowAt {
    pub node: Node,
    pub table: Table,
    pub rid: Rid,
}

/// A row of a table, and the condition by which the command selects it.
#[derive(Clone, Copy)]
pub(crate) struct Choice<'a> {
    pub command: Command,
    pub table: Table,
    pub cond: &'a Option<Cond>,
    pub rid: Rid,
}
