// The transactions, as an ordered map.
ghost use Rattle.std.specs.Prelude.{◌≡◌, ◌+◌, ◌<◌, ◌^◌, IfOk, OnOk, OnErr, false, map, filter, if◌then◌else◌};
ghost use Rattle.std.specs.Option.{ForSome};
ghost use Rattle.std.specs.List.{flat_map};
ghost use Rattle.std.specs.Map.{lookup, remove_entry};
ghost use Rattle.std.specs.BTreeMap.{IsUnchanged, IsOrdered, is_at, insert_entry};
ghost use Rattle.gx_outside.specs.Shelves.{HasKept};
ghost use Rattle.gx_dsnap.specs.Gxids.{gxid_cmp, after_ended, is_below, first_or, least_of};
ghost use Rattle.gx_dtx.specs.Table.{is_active, is_running, new_txn, holds_back, live_xmin};
ghost use Rattle.gx_dtx.specs.Rules.{with_txn, commit_found, abort_found, reply_found, decides_found, is_refused};
ghost use Rattle.gx_dtx.specs.Deciding.{HasDecided};
ghost use Rattle.gx_dtx.specs.Due.{AreMade};
ghost use Rattle.gx_dtx.specs.Nodes.{with_node as all_with};

use crate::changes;
use crate::nodes::put_in;
use crate::replies::take_answer;
use crate::taken::Taken;
use crate::txn::Txn;
use gx_dsnap::Snapshot;
use gx_ids::{Gxid, Mem, Node, Seq, Shared};
use gx_msg::{Out, Reply};
use gx_outside::Journal;
use std::alloc::Global;
use std::collections::BTreeMap;

// The transactions by gxid.
pub(crate) type Map = BTreeMap<Gxid, Txn>;

// The running gxids below a limit, in the order of the keys.
fn running_below(alloc: Global, txns: &Map, limit: Gxid) -> Mem<Vec<Gxid>>
    ensures whole { IfOk result (λ below. below.items ≡ filter (is_below limit) (map (λ e. e.0) (filter (λ e. is_running e.1.phase) txns.now.entries))) }
    ensures ordered { IsOrdered gxid_cmp txns.now }
{
    let mut below = Vec::new(alloc);
    for (gxid, txn) in txns {
        if txn.phase.is_running() && *gxid < limit {
            below.push(*gxid)?;
        }
    }
    Ok(below)
}

// The active gxids, in the order of the keys.
pub(crate) fn active(alloc: Global, txns: &Map) -> Mem<Vec<Gxid>>
    ensures { IfOk result (λ active. active.items ≡ map (λ e. e.0) (filter (λ e. is_active e.1.phase) txns.now.entries)) }
{
    let mut active = Vec::new(alloc);
    for (gxid, txn) in txns {
        if txn.phase.is_active() {
            active.push(*gxid)?;
        }
    }
    Ok(active)
}

// A snapshot of these transactions.
pub(crate) fn snapshot_of(alloc: Global, txns: &Map, latest_ended: Option<Gxid>) -> Mem<Snapshot>
    requires { ForSome latest_ended (λ g. g.0 + 1 < 2 ^ 64) }
    ensures xmax { IfOk result (λ snap. snap.xmax ≡ after_ended latest_ended) }
    ensures running { IfOk result (λ snap. snap.running ≡ filter (is_below snap.xmax) (map (λ e. e.0) (filter (λ e. is_running e.1.phase) txns.now.entries))) }
    ensures xmin { IfOk result (λ snap. snap.xmin ≡ first_or snap.running snap.xmax) }
{
    let xmax = latest_ended.map_or(Gxid(1), |gxid| Gxid(gxid.0 + 1));
    let below = running_below(alloc, txns, xmax)?;
    let xmin = below.first().copied().unwrap_or(xmax);
    let running = Shared::new(alloc, Seq::from_vec(below))?;
    Ok(Snapshot {
        xmin,
        xmax,
        running,
    })
}

// Sets the xmin of a transaction's live snapshot.
pub(crate) fn set_live(txns: &mut Map, gxid: Gxid, live: Option<Gxid>)
    ensures { txns.new.entries ≡ with_txn txns.old.entries gxid (λ t. record t { live = live }) }
{
    if let Some(txn) = txns.get_mut(&gxid) {
        txn.live = live;
    }
}

// Makes a node a participant.
pub(crate) fn enlist(alloc: Global, txns: &mut Map, gxid: Gxid, node: Node) -> Mem<()>
    ensures ok { OnOk result (txns.new.entries ≡ with_txn txns.old.entries gxid (λ t. record t { participants = all_with node t.participants })) }
    ensures err { OnErr result (txns.new.entries ≡ txns.old.entries) }
{
    match txns.get_mut(&gxid) {
        Some(txn) => put_in(alloc, node, &mut txn.participants),
        None => Ok(()),
    }
}

// Adds a transaction that begins.
pub(crate) fn add(alloc: Global, txns: &mut Map, gxid: Gxid) -> Mem<()>
    ensures ok { OnOk result (txns.new.entries ≡ insert_entry gxid_cmp txns.old.entries gxid new_txn) }
    ensures err { OnErr result (IsUnchanged txns.old txns.new) }
{
    drop(txns.insert(gxid, Txn::new(alloc))?);
    Ok(())
}

// A transaction commits, with these writers.
pub(crate) fn commit(
    alloc: Global,
    spent: &mut Vec<Out>,
    txns: &mut Map,
    gxid: Gxid,
    writers: &[Node],
) -> Mem<Taken>
    ensures value { IfOk result (λ taken. AreMade (commit_found gxid writers.now (lookup (is_at (gxid_cmp gxid)) txns.old.entries)) txns.old.entries txns.new.entries gxid taken) }
    ensures err { OnErr result (txns.new.entries ≡ txns.old.entries) }
{
    match txns.get_mut(&gxid) {
        Some(txn) => changes::commit(alloc, spent, gxid, writers, txn),
        None => Ok(Taken::silent(alloc)),
    }
}

// A transaction aborts.
pub(crate) fn abort(alloc: Global, spent: &mut Vec<Out>, txns: &mut Map, gxid: Gxid) -> Mem<Taken>
    ensures value { IfOk result (λ taken. AreMade (abort_found gxid (lookup (is_at (gxid_cmp gxid)) txns.old.entries)) txns.old.entries txns.new.entries gxid taken) }
    ensures err { OnErr result (txns.new.entries ≡ txns.old.entries) }
{
    match txns.get_mut(&gxid) {
        Some(txn) => changes::abort(alloc, spent, gxid, txn),
        None => Ok(Taken::silent(alloc)),
    }
}

// A node answers about a transaction.
pub(crate) fn reply<J: Journal>(
    alloc: Global,
    spent: &mut Vec<Out>,
    txns: &mut Map,
    gxid: Gxid,
    node: Node,
    answer: &Reply,
    journal: &mut J,
) -> Mem<Taken>
    ensures value { IfOk result (λ taken. AreMade (reply_found gxid node answer.now (is_refused taken.out.outcome) (lookup (is_at (gxid_cmp gxid)) txns.old.entries))
        txns.old.entries txns.new.entries gxid taken) }
    ensures err { OnErr result (txns.new.entries ≡ txns.old.entries) }
    ensures decided { IfOk result (λ taken. HasDecided (J.shelf journal.old) (J.shelf journal.new) gxid
        (decides_found (lookup (is_at (gxid_cmp gxid)) txns.old.entries) node answer.now) taken.out.outcome) }
    ensures untouched { decides_found (lookup (is_at (gxid_cmp gxid)) txns.old.entries) node answer.now ≡ false → journal.new ≡ journal.old }
    ensures kept { OnErr result (HasKept (J.shelf journal.old) (J.shelf journal.new)) }
{
    match txns.get_mut(&gxid) {
        Some(txn) => take_answer(alloc, spent, gxid, txn, node, answer, journal),
        None => Ok(Taken::silent(alloc)),
    }
}

// Takes a transaction out if it leaves the table.
pub(crate) fn settle(txns: &mut Map, gxid: Gxid, leaves: bool)
    ensures { txns.new.entries ≡ (if leaves then remove_entry (is_at (gxid_cmp gxid)) txns.old.entries else txns.old.entries) }
{
    if leaves {
        drop(txns.remove(&gxid));
    }
}

// The least gxid that some transaction holds the horizon at, or another that is less.
#[tactic(auto, using(crate::proofs::Low::least_of_entries))]
pub(crate) fn horizon(txns: &Map, next: Gxid) -> Gxid
    ensures { result ≡ least_of (flat_map holds_back txns.now.entries) next }
{
    let mut least = next;
    for (gxid, txn) in txns {
        least = least_with(txn.live, (*gxid).min(least));
    }
    least
}

fn least_with(live: Option<Gxid>, other: Gxid) -> Gxid
    ensures { result ≡ least_of (live_xmin live) other }
{
    match live {
        Some(xmin) => xmin.min(other),
        None => other,
    }
}
