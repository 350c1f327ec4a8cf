use gx_ids::{Cid, Lxid, Table};
use gx_tree::Row;

/// What one write made of a row. An `image` of `None` is the row gone.
#[derive(Drop)]
pub struct Version {
    pub image: Option<Row>,
    pub table: Table,
    pub lxid: Lxid,
    pub cid: Cid,
}
