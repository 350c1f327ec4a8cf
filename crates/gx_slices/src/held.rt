use crate::kept::KeptRows;
use crate::store::LocalStore;
use gx_ids::Gxid;
use gx_locks::LockTable;
use gx_node::Local;
use std::collections::{BTreeMap, BTreeSet};

/// A transaction at a segment: where it stands, and what it wrote here.
#[derive(Drop)]
pub struct Entry {
    pub local: Local,
    pub kept: KeptRows,
}

/// What a segment holds: the rows, the transactions that aren't below the horizon, those to which a command has come and that
/// have not ended here, and the locks. The horizon is the store's.
#[derive(Drop)]
pub struct Held {
    pub store: LocalStore,
    pub entries: BTreeMap<Gxid, Entry>,
    pub holders: BTreeSet<Gxid>,
    pub locks: LockTable,
}
