ghost use Rattle.std.specs.Prelude.{◌≡◌, is_some, ◌≤◌, ◌<◌, ◌^◌, ◌++◌, ◌∷◌, [], true, false, All, Contains, IfOk, OnOk, OnErr, None, Some, option_map};
ghost use Rattle.std.specs.List.{flat_map};
ghost use Rattle.gx_ids.specs.declared.ids.Gxid.{Gxid};
ghost use Rattle.gx_outside.specs.Shelves.{HasKept};
ghost use Rattle.gx_dsnap.specs.Snapshot.{sees};

use crate::found;
use crate::outcome::DtxOut;
use crate::status::Status;
use crate::txns::{Txns, latest_after};
use gx_dsnap::Snapshot;
use gx_ids::{Gxid, Mem, Node};
use gx_msg::{Out, Reply};
use gx_outside::Journal;
use std::alloc::Global;
use std::marker::Model;

/// The coordinator's transactions: those that run, and those that have ended and that some participant hasn't
/// forgotten.
#[derive(Drop)]
pub struct Dtx {
    next: Gxid,
    latest_ended: Option<Gxid>,
    txns: Txns,
}

impl Model for Dtx {
    ghost use Rattle.gx_dtx.specs.Table.{Table};
    ghost use Rattle.gx_dtx.specs.Whole.{IsWhole};

    ghost Value = { Table };

    ghost view = { λ a. record { next = a.next; latest_ended = a.latest_ended; txns = a.txns } };

    ghost invariant = { λ a. IsWhole (record { next = a.next; latest_ended = a.latest_ended; txns = a.txns }) };
}

impl Dtx {
    ghost use Rattle.gx_dtx.specs.Table.{new_table, active_of, status_of, IsActive, participants_of, xmax_of, listed_of, xmin_of, has_ended, holds_back, horizon_of};
    ghost use Rattle.gx_dtx.specs.Rules.{begun, with_live, enlisted, on_commit, on_abort, on_reply, awaits, is_deciding, awaited_order, AreWriters, is_refused, ended_alone, silently};
    ghost use Rattle.gx_dtx.specs.Deciding.{HasDecided, own_failure};
    ghost use Rattle.gx_dtx.specs.Laws.{HasCause};
    ghost use Rattle.gx_dtx.specs.Orders.{message_of};
    ghost use Rattle.gx_dtx.specs.declared.outcome.Outcome.TheVariants as outcome;

    /// No transaction yet. Later calls take what memory they need from the same allocator.
    pub fn new(alloc: Global) -> Mem<Dtx>
        ensures { IfOk result (λ dtx. dtx ≡ new_table) }
    {
        Ok(Dtx {
            next: Gxid(1),
            latest_ended: None,
            txns: Txns::new(alloc),
        })
    }

    /// Draws the next gxid, from 1 upwards, for a transaction that begins.
    pub fn begin(&mut self) -> Mem<Gxid>
        requires { self.old.next.0 ≤ 2 ^ 62 }
        ensures next { IfOk result (λ gxid. gxid ≡ self.old.next) }
        ensures ok { OnOk result (self.new ≡ begun self.old) }
        ensures err { OnErr result (self.new ≡ self.old) }
    {
        let gxid = self.next;
        let next = Gxid(gxid.0 + 1);
        self.txns.begin(gxid)?;
        self.next = next;
        Ok(gxid)
    }

    /// A transaction's status; none where it wasn't drawn, or has ended and is forgotten by every participant.
    pub fn status(&self, gxid: Gxid) -> Option<Status>
        ensures { result ≡ status_of self.now gxid }
    {
        let txn = self.txns.find(gxid)?;
        Some(txn.phase.status())
    }

    /// The transactions whose commands run, rising.
    pub fn active(&self) -> Mem<Vec<Gxid>>
        ensures { IfOk result (λ active. active.items ≡ active_of self.now) }
    {
        self.txns.active()
    }

    /// Takes a snapshot for a statement or a block of the transaction (Lyu et al., SIGMOD 2021; PostgreSQL manual
    /// 13.2). It is live, and holds the horizon back, until it is dropped, the next is taken for the transaction, or
    /// the transaction is committed or aborted.
    pub fn snapshot(&mut self, gxid: Gxid) -> Mem<Snapshot>
        requires { IsActive self.old gxid }
        ensures xmax { IfOk result (λ snap. snap.xmax ≡ xmax_of self.old) }
        ensures running { IfOk result (λ snap. snap.running ≡ listed_of self.old) }
        ensures xmin { IfOk result (λ snap. snap.xmin ≡ xmin_of self.old) }
        ensures seen { IfOk result (λ snap. (g : Gxid) → 0 < g.0 → sees snap g ≡ has_ended self.old g) }
        ensures ok { OnOk result (self.new ≡ with_live self.old gxid (Some (xmin_of self.old))) }
        ensures err { OnErr result (self.new ≡ self.old) }
    {
        let snapshot = self.txns.snapshot(self.latest_ended)?;
        self.txns.set_live(gxid, Some(snapshot.xmin));
        Ok(snapshot)
    }

    /// The snapshot that a reader of no transaction would take now. It isn't live, and holds nothing back.
    pub fn final_snapshot(&self) -> Mem<Snapshot>
        ensures xmax { IfOk result (λ snap. snap.xmax ≡ xmax_of self.now) }
        ensures running { IfOk result (λ snap. snap.running ≡ listed_of self.now) }
        ensures xmin { IfOk result (λ snap. snap.xmin ≡ xmin_of self.now) }
        ensures seen { IfOk result (λ snap. (g : Gxid) → 0 < g.0 → sees snap g ≡ has_ended self.now g) }
    {
        let _next = self.next.0;
        let snapshot = self.txns.snapshot(self.latest_ended)?;
        Ok(snapshot)
    }

    /// Ends a transaction's live snapshot, if it has one.
    pub fn drop_snapshot(&mut self, gxid: Gxid)
        ensures { self.new ≡ with_live self.old gxid None }
    {
        self.txns.set_live(gxid, None);
    }

    /// Makes a node a participant of the transaction, since a command goes to it.
    pub fn enlist(&mut self, gxid: Gxid, node: Node) -> Mem<()>
        requires { IsActive self.old gxid }
        ensures ok { OnOk result (self.new ≡ enlisted self.old gxid node) }
        ensures err { OnErr result (self.new ≡ self.old) }
    {
        self.txns.enlist(gxid, node)
    }

    /// Commits a transaction that has written at these nodes: at once without writers, by one phase with one, by two
    /// with more (Lyu et al., SIGMOD 2021). What is to be sent takes the memory of a spent list.
    pub fn commit(&mut self, spent: &mut Vec<Out>, gxid: Gxid, writers: &[Node]) -> Mem<DtxOut>
        requires active { IsActive self.old gxid }
        requires writers { AreWriters self.old gxid writers.now }
        ensures table { OnOk result (self.new ≡ (on_commit self.old gxid writers.now).table) }
        ensures out { IfOk result (λ out. out ≡ (on_commit self.old gxid writers.now).out) }
        ensures alone { participants_of self.old gxid ≡ [] → OnOk result (self.new ≡ ended_alone self.old gxid) }
        ensures told { participants_of self.old gxid ≡ [] → IfOk result (λ out. out ≡ silently outcome.Committed) }
        ensures err { OnErr result (self.new ≡ self.old) }
    {
        let out = self.txns.commit(spent, gxid, writers)?;
        self.latest_ended = latest_after(out.outcome, gxid, self.latest_ended);
        Ok(out)
    }

    /// Aborts a transaction. What is to be sent takes the memory of a spent list.
    pub fn abort(&mut self, spent: &mut Vec<Out>, gxid: Gxid) -> Mem<DtxOut>
        requires { IsActive self.old gxid }
        ensures table { OnOk result (self.new ≡ (on_abort self.old gxid).table) }
        ensures out { IfOk result (λ out. out ≡ (on_abort self.old gxid).out) }
        ensures alone { participants_of self.old gxid ≡ [] → OnOk result (self.new ≡ ended_alone self.old gxid) }
        ensures told { participants_of self.old gxid ≡ [] → IfOk result (λ out. out ≡ silently outcome.Ended) }
        ensures err { OnErr result (self.new ≡ self.old) }
    {
        let out = self.txns.abort(spent, gxid)?;
        self.latest_ended = latest_after(out.outcome, gxid, self.latest_ended);
        Ok(out)
    }

    /// Takes a node's answer about a transaction. One that isn't awaited changes nothing. With the last PREPARED the
    /// decide item is appended to the journal, and nowhere else is the journal touched. Where that append fails, or
    /// where a JFAULT came, the transaction aborts. AGAIN leaves COMMIT PREPARED awaited. What is to be sent takes the memory
    /// of a spent list.
    pub fn reply<J: Journal>(
        &mut self,
        spent: &mut Vec<Out>,
        gxid: Gxid,
        node: Node,
        answer: Reply,
        journal: &mut J,
    ) -> Mem<DtxOut>
        ensures table { IfOk result (λ out. self.new ≡ (on_reply self.old gxid node answer (is_refused out.outcome)).table) }
        ensures out { IfOk result (λ out. out ≡ (on_reply self.old gxid node answer (is_refused out.outcome)).out) }
        ensures cause { IfOk result (λ out. HasCause self.old gxid node answer (is_refused out.outcome) out.outcome) }
        ensures unawaited { awaits self.old gxid node answer ≡ false → OnOk result (self.new ≡ self.old) }
        ensures decided { IfOk result (λ out. HasDecided (J.shelf journal.old) (J.shelf journal.new) gxid (is_deciding self.old gxid node answer) out.outcome) }
        ensures calm { IfOk result (λ out. own_failure out.outcome ≡ false → (J.shelf journal.new).faults ≡ (J.shelf journal.old).faults) }
        ensures untouched { is_deciding self.old gxid node answer ≡ false → journal.new ≡ journal.old }
        ensures err { OnErr result (self.new ≡ self.old) }
        ensures kept { OnErr result (HasKept (J.shelf journal.old) (J.shelf journal.new)) }
    {
        let out = self.txns.reply(spent, gxid, node, &answer, journal)?;
        self.latest_ended = latest_after(out.outcome, gxid, self.latest_ended);
        Ok(out)
    }

    /// The message to a node whose answer is awaited, once more; none exactly where no answer of the node is awaited.
    pub fn resend(&self, gxid: Gxid, node: Node) -> Mem<Option<Out>>
        ensures { IfOk result (λ out. out ≡ option_map (λ order. record { node = node; message = message_of order gxid }) (awaited_order self.now gxid node)) }
    {
        let order = found::order(self.txns.find(gxid), node);
        Ok(order.map(|order| order.out(gxid, node)))
    }

    /// Whether an answer of the node about the transaction is awaited.
    pub fn is_awaited(&self, gxid: Gxid, node: Node) -> bool
        ensures { result ≡ is_some (awaited_order self.now gxid node) }
    {
        found::order(self.txns.find(gxid), node).is_some()
    }

    /// The horizon: the least of the gxids that run, or that have ended and that not every participant has forgotten,
    /// of the `xmin` of each live snapshot and of the next gxid.
    pub fn horizon(&self) -> Gxid
        ensures value { result ≡ horizon_of self.now }
        ensures lowest { All (λ g. result.0 ≤ g.0) (flat_map holds_back self.now.txns ++ self.now.next ∷ []) }
        ensures among { Contains (flat_map holds_back self.now.txns ++ self.now.next ∷ []) result }
    {
        self.txns.horizon(self.next)
    }
}
