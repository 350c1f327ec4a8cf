ghost use Rattle.std.specs.Prelude.{◌≡◌, ◌+◌, ◌<◌, ◌^◌, [], IfOk, OnOk, OnErr, None, false, map, filter};
ghost use Rattle.std.specs.Option.{ForSome, option_copied};
ghost use Rattle.std.specs.List.{flat_map};
ghost use Rattle.std.specs.Map.{lookup};
ghost use Rattle.std.specs.BTreeMap.{is_at, insert_entry};
ghost use Rattle.gx_dsnap.specs.Gxids.{gxid_cmp, after_ended, is_below, first_or, least_of};
ghost use Rattle.gx_dtx.specs.Rules.{with_ended, ends};

use crate::map;
use crate::outcome::{DtxOut, Outcome};
use crate::txn::Txn;
use gx_dsnap::Snapshot;
use gx_ids::{Gxid, Mem, Node};
use gx_msg::{Out, Reply};
use gx_outside::Journal;
use std::alloc::Global;
use std::collections::BTreeMap;
use std::marker::Model;

/// The transactions by gxid. Contracts see them as the list of both, rising.
#[derive(Drop)]
pub struct Txns {
    alloc: Global,
    map: map::Map,
}

impl Model for Txns {
    ghost use Rattle.std.specs.Prelude.{List};
    ghost use Rattle.gx_ids.specs.declared.ids.Gxid.{Gxid};
    ghost use Rattle.gx_dtx.specs.declared.txn.Txn.{Txn};

    ghost Value = { List (Gxid × Txn) };

    ghost view = { λ a. a.map.entries };
}

impl Txns {
    ghost use Rattle.gx_dtx.specs.Table.{is_active, is_running, holds_back, new_txn};
    ghost use Rattle.gx_dtx.specs.Rules.{with_txn, with_step, commit_found, abort_found, reply_found, decides_found, is_refused};
    ghost use Rattle.gx_dtx.specs.Deciding.{HasDecided};
    ghost use Rattle.gx_dtx.specs.Nodes.{with_node as all_with};
    ghost use Rattle.gx_outside.specs.Shelves.{HasKept};

    /// No transactions.
    pub fn new(alloc: Global) -> Txns
        ensures { result ≡ [] }
    {
        Txns {
            alloc,
            map: BTreeMap::new(alloc),
        }
    }

    /// The transaction of a gxid.
    pub fn find(&self, gxid: Gxid) -> Option<&Txn>
        ensures { option_copied result ≡ lookup (is_at (gxid_cmp gxid)) self.now }
    {
        self.map.get(&gxid)
    }

    /// Adds a transaction that begins.
    pub fn begin(&mut self, gxid: Gxid) -> Mem<()>
        requires { lookup (is_at (gxid_cmp gxid)) self.old ≡ None }
        ensures ok { OnOk result (self.new ≡ insert_entry gxid_cmp self.old gxid new_txn) }
        ensures err { OnErr result (self.new ≡ self.old) }
    {
        map::add(self.alloc, &mut self.map, gxid)
    }

    /// A snapshot of the transactions.
    pub fn snapshot(&self, latest_ended: Option<Gxid>) -> Mem<Snapshot>
        requires { ForSome latest_ended (λ g. g.0 + 1 < 2 ^ 64) }
        ensures xmax { IfOk result (λ snap. snap.xmax ≡ after_ended latest_ended) }
        ensures running { IfOk result (λ snap. snap.running ≡ filter (is_below snap.xmax) (map (λ e. e.0) (filter (λ e. is_running e.1.phase) self.now))) }
        ensures xmin { IfOk result (λ snap. snap.xmin ≡ first_or snap.running snap.xmax) }
    {
        map::snapshot_of(self.alloc, &self.map, latest_ended)
    }

    /// The active gxids.
    pub fn active(&self) -> Mem<Vec<Gxid>>
        ensures { IfOk result (λ active. active.items ≡ map (λ e. e.0) (filter (λ e. is_active e.1.phase) self.now)) }
    {
        map::active(self.alloc, &self.map)
    }

    /// Sets the `xmin` of a transaction's live snapshot, or that it has none.
    pub fn set_live(&mut self, gxid: Gxid, live: Option<Gxid>)
        ensures { self.new ≡ with_txn self.old gxid (λ t. record t { live = live }) }
    {
        map::set_live(&mut self.map, gxid, live);
    }

    /// Makes a node a participant.
    pub fn enlist(&mut self, gxid: Gxid, node: Node) -> Mem<()>
        ensures ok { OnOk result (self.new ≡ with_txn self.old gxid (λ t. record t { participants = all_with node t.participants })) }
        ensures err { OnErr result (self.new ≡ self.old) }
    {
        map::enlist(self.alloc, &mut self.map, gxid, node)
    }

    /// Commits a transaction with these writers.
    pub fn commit(&mut self, spent: &mut Vec<Out>, gxid: Gxid, writers: &[Node]) -> Mem<DtxOut>
        ensures txns { OnOk result (self.new ≡ with_step self.old gxid (commit_found gxid writers.now (lookup (is_at (gxid_cmp gxid)) self.old)).step) }
        ensures out { IfOk result (λ out. out ≡ (commit_found gxid writers.now (lookup (is_at (gxid_cmp gxid)) self.old)).out) }
        ensures err { OnErr result (self.new ≡ self.old) }
    {
        let taken = map::commit(self.alloc, spent, &mut self.map, gxid, writers)?;
        map::settle(&mut self.map, gxid, taken.leaves);
        Ok(taken.out)
    }

    /// Aborts a transaction.
    pub fn abort(&mut self, spent: &mut Vec<Out>, gxid: Gxid) -> Mem<DtxOut>
        ensures txns { OnOk result (self.new ≡ with_step self.old gxid (abort_found gxid (lookup (is_at (gxid_cmp gxid)) self.old)).step) }
        ensures out { IfOk result (λ out. out ≡ (abort_found gxid (lookup (is_at (gxid_cmp gxid)) self.old)).out) }
        ensures err { OnErr result (self.new ≡ self.old) }
    {
        let taken = map::abort(self.alloc, spent, &mut self.map, gxid)?;
        map::settle(&mut self.map, gxid, taken.leaves);
        Ok(taken.out)
    }

    /// Takes a node's answer about a transaction.
    pub fn reply<J: Journal>(
        &mut self,
        spent: &mut Vec<Out>,
        gxid: Gxid,
        node: Node,
        answer: &Reply,
        journal: &mut J,
    ) -> Mem<DtxOut>
        ensures txns { IfOk result (λ out. self.new ≡ with_step self.old gxid (reply_found gxid node answer.now (is_refused out.outcome) (lookup (is_at (gxid_cmp gxid)) self.old)).step) }
        ensures out { IfOk result (λ out. out ≡ (reply_found gxid node answer.now (is_refused out.outcome) (lookup (is_at (gxid_cmp gxid)) self.old)).out) }
        ensures err { OnErr result (self.new ≡ self.old) }
        ensures decided { IfOk result (λ out. HasDecided (J.shelf journal.old) (J.shelf journal.new) gxid (decides_found (lookup (is_at (gxid_cmp gxid)) self.old) node answer.now) out.outcome) }
        ensures untouched { decides_found (lookup (is_at (gxid_cmp gxid)) self.old) node answer.now ≡ false → journal.new ≡ journal.old }
        ensures kept { OnErr result (HasKept (J.shelf journal.old) (J.shelf journal.new)) }
    {
        let taken = map::reply(
            self.alloc,
            spent,
            &mut self.map,
            gxid,
            node,
            answer,
            journal,
        )?;
        map::settle(&mut self.map, gxid, taken.leaves);
        Ok(taken.out)
    }

    /// The least gxid that some transaction holds the horizon at, or the next gxid.
    pub fn horizon(&self, next: Gxid) -> Gxid
        ensures { result ≡ least_of (flat_map holds_back self.now) next }
    {
        map::horizon(&self.map, next)
    }
}

// The greatest gxid that has ended, after a call of this outcome.
pub(crate) fn latest_after(outcome: Outcome, gxid: Gxid, latest: Option<Gxid>) -> Option<Gxid>
    ensures { result ≡ with_ended (ends outcome) gxid latest }
{
    match outcome {
        Outcome::Committed | Outcome::Ended => Some(latest.map_or(gxid, |other| other.max(gxid))),
        Outcome::Pending | Outcome::Decided | Outcome::Refused(_) => latest,
    }
}
