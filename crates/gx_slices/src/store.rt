ghost use Rattle.std.specs.Prelude.{◌≡◌, ◌≢◌, ◌≤◌, ◌⊎◌, ◌++◌, ◌∷◌, [], Some, IfOk, OnOk, OnErr, unwrap_or, is_some, map, option_map, option_and_then};
ghost use Rattle.std.specs.Option.{ForSome, option_copied};
ghost use Rattle.gx_ids.specs.declared.ids.Gxid.{Gxid};
ghost use Rattle.gx_ids.specs.declared.ids.Table.{Table};
ghost use Rattle.gx_ids.specs.declared.rid.Rid.{Rid};
ghost use Rattle.gx_meaning.specs.Answer.{AreRising};
ghost use Rattle.gx_store.specs.Rows.{row_at};
ghost use Rattle.gx_slices.specs.Keyed.{IsShownFor};
ghost use Rattle.gx_tree.specs.declared.part.Part.TheVariants.{Rows};
ghost use Rattle.gx_slices.specs.Store.{empty, writes_of, status_of, shown_row, newest_of, current_of, swept, with_status, IsRaised};

use crate::current::Current;
use crate::finding::rows_to_test;
use crate::newest::Newest;
use crate::no_rows::NoRows;
use crate::reading::{current_in, current_row_in, newest_in, own_lxid, rows_in};
use crate::shown_row::{ShownRow, to_all_keyed};
use crate::sweeping::sweep_in;
use crate::writing::{set_status_in, status_in, write_keyed};
use gx_dsnap::Snapshot;
use gx_ids::{Cid, Gxid, Mem, Rid, Shared, Table};
use gx_rows::{LocalStatus, Versions, XidMap};
use gx_sweep::KeyIndex;
use gx_tree::{Cond, Dist, KeyedRow, Part, Row, Schema};
use std::alloc::Global;
use std::collections::BTreeMap;
use std::marker::Model;

/// What one segment keeps of rows: the writes to each row of each table that no sweep has dropped, each with what became here of its
/// transaction; which transactions from the horizon on have written here; and the horizon, below which nobody asks for a transaction any
/// more (Lyu et al., SIGMOD 2021). Contracts see all of it without lxids. How the tables are distributed, and which rows stand under which
/// value of the distribution column, is kept besides, so that rows are found by it; nobody sees that, nor the part that all answers
/// without rows share.
#[derive(Drop)]
pub struct LocalStore {
    alloc: Global,
    dists: Vec<Dist>,
    index: KeyIndex,
    tables: BTreeMap<Table, Versions>,
    xids: XidMap,
    no_rows: NoRows,
}

impl Model for LocalStore {
    ghost use Rattle.gx_slices.specs.Store.{Store};
    ghost use Rattle.gx_slices.specs.Filed.{store_of};
    ghost use Rattle.gx_slices.specs.Keyed.{IsKeyed};

    ghost Value = { Store };

    ghost view = { λ a. store_of a.tables.entries a.xids };

    ghost invariant = { λ a. IsKeyed a.dists.items a.index a.tables.entries a.xids };
}

impl LocalStore {
    /// A store of these tables without writes, and a horizon below each transaction.
    pub fn new(alloc: Global, tables: &[Schema]) -> Mem<LocalStore>
        ensures { IfOk result (λ store. store ≡ empty) }
    {
        let dists: Vec<Dist> = tables.iter().map(|schema| schema.dist).collect(alloc)?;
        Ok(LocalStore {
            alloc,
            dists,
            index: KeyIndex::new(alloc),
            tables: BTreeMap::new(alloc),
            xids: XidMap::new(alloc)?,
            no_rows: NoRows::new(alloc)?,
        })
    }

    /// Adds a write to a row, at the end of the row's. A transaction that writes here for the first time is running here
    /// from then on; after want of memory it may be so too, though nothing was written.
    pub fn write(
        &mut self,
        gxid: Gxid,
        cid: Cid,
        table: Table,
        rid: Rid,
        image: Option<Row>,
    ) -> Mem<()>
        requires { self.old.horizon.0 ≤ gxid.0 }
        ensures written { OnOk result (writes_of self.new table rid ≡ writes_of self.old table rid
            ++ (record { writer = Some gxid; cid = cid; status = unwrap_or (status_of self.old gxid) LocalStatus.Running; image = image }) ∷ []) }
        ensures rows { OnOk result ((r : Rid) → r ≢ rid → writes_of self.new table r ≡ writes_of self.old table r) }
        ensures tables { OnOk result ((t : Table) (r : Rid) → t ≢ table → writes_of self.new t r ≡ writes_of self.old t r) }
        ensures status { OnOk result (status_of self.new gxid ≡ Some (unwrap_or (status_of self.old gxid) LocalStatus.Running)) }
        ensures others { (g : Gxid) → g.0 ≢ gxid.0 → status_of self.new g ≡ status_of self.old g }
        ensures horizon { self.new.horizon ≡ self.old.horizon }
        ensures err { OnErr result ((t : Table) (r : Rid) → writes_of self.new t r ≡ writes_of self.old t r) }
        ensures tried { OnErr result ((status_of self.new gxid ≡ status_of self.old gxid) ⊎ (status_of self.new gxid ≡ Some (unwrap_or (status_of self.old gxid) LocalStatus.Running))) }
    {
        write_keyed(
            self.alloc,
            self.dists.as_slice(),
            &mut self.index,
            &mut self.tables,
            &mut self.xids,
            gxid,
            cid,
            table,
            rid,
            image,
        )
    }

    /// The part of an answer that gives no rows.
    pub fn no_rows(&self) -> Mem<Shared<Part>>
        ensures { IfOk result (λ rows. rows ≡ Rows []) }
    {
        self.no_rows.share(self.alloc)
    }

    /// Whether the transaction has written here.
    pub fn has_written(&self, gxid: Gxid) -> bool
        requires { self.now.horizon.0 ≤ gxid.0 }
        ensures { result ≡ is_some (status_of self.now gxid) }
    {
        status_in(&self.xids, gxid).is_some()
    }

    /// What became of a transaction here, none where it never wrote here.
    pub fn status(&self, gxid: Gxid) -> Option<LocalStatus>
        requires { self.now.horizon.0 ≤ gxid.0 }
        ensures { result ≡ status_of self.now gxid }
    {
        status_in(&self.xids, gxid)
    }

    /// Sets what became of a transaction that wrote here. Of one that didn't, nothing is kept.
    pub fn set_status(&mut self, gxid: Gxid, status: LocalStatus)
        requires { self.old.horizon.0 ≤ gxid.0 }
        ensures set { status_of self.new gxid ≡ option_map (λ _. status) (status_of self.old gxid) }
        ensures others { (g : Gxid) → g.0 ≢ gxid.0 → status_of self.new g ≡ status_of self.old g }
        ensures writes { (t : Table) (r : Rid) → writes_of self.new t r ≡ map (with_status gxid status) (writes_of self.old t r) }
        ensures horizon { self.new.horizon ≡ self.old.horizon }
    {
        set_status_in(&mut self.xids, gxid, status);
    }

    /// Raises the horizon, where this one is greater, and forgets who the transactions below it are.
    pub fn raise_horizon(&mut self, horizon: Gxid)
        ensures { IsRaised self.old horizon self.new }
    {
        self.xids.truncate(horizon);
    }

    /// Drops the writes to a row that nobody is shown any more: those of transactions that have aborted here, and those that a later one
    /// has overtaken which is committed here by a transaction below the horizon.
    pub fn sweep(&mut self, table: Table, rid: Rid)
        ensures swept { writes_of self.new table rid ≡ swept self.old (writes_of self.old table rid) }
        ensures rows { (r : Rid) → r ≢ rid → writes_of self.new table r ≡ writes_of self.old table r }
        ensures tables { (t : Table) (r : Rid) → t ≢ table → writes_of self.new t r ≡ writes_of self.old t r }
        ensures writers { self.new.writers ≡ self.old.writers }
        ensures horizon { self.new.horizon ≡ self.old.horizon }
    {
        sweep_in(&mut self.tables, &self.xids, table, rid);
    }

    /// The rows of a table that a reader is shown, rising by their identities (PostgreSQL manual 13.2): `own` is its
    /// transaction, where it has one, and `cid` its command. Who is below the horizon counts as seen, so a snapshot may be
    /// older than it.
    pub fn shown_rows(
        &self,
        table: Table,
        snap: &Snapshot,
        own: Option<Gxid>,
        cid: Cid,
    ) -> Mem<Vec<KeyedRow>>
        requires alive { ForSome own (λ g. self.now.horizon.0 ≤ g.0) }
        ensures rising { IfOk result (λ rows. AreRising rows.items) }
        ensures images { IfOk result (λ rows. (rid : Rid) → row_at rows.items rid ≡ shown_row self.now snap.now own cid table rid) }
    {
        let own = own_lxid(&self.xids, own);
        let rows = rows_in(self.alloc, &self.tables, &self.xids, table, snap, own, cid)?;
        to_all_keyed(self.alloc, rows.as_slice())
    }

    /// The rows that a reader is shown, less some on which the condition, where it has a meaning on them, is false without a fault.
    pub(crate) fn shown_rows_for(
        &self,
        table: Table,
        cond: &Option<Cond>,
        snap: &Snapshot,
        own: Option<Gxid>,
        cid: Cid,
    ) -> Mem<Vec<ShownRow<'_>>>
        requires alive { ForSome own (λ g. self.now.horizon.0 ≤ g.0) }
        ensures rising { IfOk result (λ rows. AreRising rows.items) }
        ensures images { IfOk result (λ rows. (rid : Rid) → IsShownFor cond.now (shown_row self.now snap.now own cid table rid) (row_at rows.items rid)) }
    {
        let own = own_lxid(&self.xids, own);
        rows_to_test(
            self.alloc,
            self.dists.as_slice(),
            &self.index,
            &self.tables,
            &self.xids,
            table,
            cond,
            snap,
            own,
            cid,
        )
    }

    /// The newest write to a row that isn't aborted here, with a copy of the row that it left; none where there is none.
    pub(crate) fn newest(&self, table: Table, rid: Rid) -> Mem<Option<Newest>>
        ensures { IfOk result (λ found. found ≡ option_map (λ w. record { writer = w.writer; cid = w.cid; image = w.image }) (newest_of self.now table rid)) }
    {
        newest_in(self.alloc, &self.tables, &self.xids, table, rid)
    }

    /// The newest write to a row that isn't aborted here, none where there is none.
    pub fn current(&self, table: Table, rid: Rid) -> Option<Current>
        ensures { result ≡ option_map current_of (newest_of self.now table rid) }
    {
        current_in(&self.tables, &self.xids, table, rid)
    }

    /// The row that the newest write which isn't aborted here left, none where that is gone or there is no such write.
    pub fn current_row(&self, table: Table, rid: Rid) -> Option<&Row>
        ensures { option_copied result ≡ option_and_then (λ w. w.image) (newest_of self.now table rid) }
    {
        current_row_in(&self.tables, &self.xids, table, rid)
    }
}
