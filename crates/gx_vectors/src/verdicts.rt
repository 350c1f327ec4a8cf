// The log of verdicts: settles of a coordinator that opens it again, a log without a free slot, and what is kept behind a stop at each
// call on the disk.
ghost use Rattle.std.specs.Prelude.{◌<◌};

use gx_decide::{DecideFault, Decider, Decision, DiskMem, open_log};
use gx_ids::Gxid;
use std::alloc::Global;
use std::test::Fail;

#[test]
fn verdicts_are_kept_over_an_open(rt: HostRuntime) -> Result<(), Fail> {
    let alloc = rt.alloc();
    let mut disk = DiskMem::new(alloc, 8, Vec::new(alloc))?;
    let decider = open_log(alloc, &mut disk)?;
    let (decider, four) = decider.settle(&mut disk, Gxid(4), Decision::Commit)?;
    let (_, five) = decider.settle(&mut disk, Gxid(5), Decision::Abort)?;
    let decider = open_log(alloc, &mut disk)?;
    let (decider, five_again) = decider.settle(&mut disk, Gxid(5), Decision::Commit)?;
    let (_, four_again) = decider.settle(&mut disk, Gxid(4), Decision::Abort)?;
    assert!(rt; four == Decision::Commit && five == Decision::Abort);
    assert!(rt; four_again == Decision::Commit && five_again == Decision::Abort);
    Ok(())
}

#[test]
fn a_full_log_answers_what_it_has(rt: HostRuntime) -> Result<(), Fail> {
    let alloc = rt.alloc();
    let mut disk = DiskMem::new(alloc, 1, Vec::new(alloc))?;
    let decider = open_log(alloc, &mut disk)?;
    let (decider, _) = decider.settle(&mut disk, Gxid(4), Decision::Commit)?;
    let (decider, kept) = decider.settle(&mut disk, Gxid(4), Decision::Abort)?;
    assert!(rt; kept == Decision::Commit);
    match decider.settle(&mut disk, Gxid(5), Decision::Abort) {
        Ok(_) => assert!(rt; false, "the log has one slot"),
        Err(fault) => assert!(rt; fault == DecideFault::Full(1)),
    }
    Ok(())
}

// The last transaction of a run, for each of which the log has a slot.
const LAST: u64 = 8;

// An open syncs and reads each slot.
const OPEN: u64 = 9;

// A settle writes the pair, syncs, writes the gate and syncs.
const SETTLE: u64 = 4;

// What a run wishes for a transaction.
fn wish(gxid: u64) -> Decision {
    if gxid % 2 == 0 {
        Decision::Commit
    } else {
        Decision::Abort
    }
}

// Settles the transactions from 1 on, up to a fault, and answers how many were settled.
fn settle_some(alloc: Global, disk: &mut DiskMem) -> u64 {
    let Ok(mut decider) = open_log(alloc, disk) else {
        return 0;
    };
    let mut settled = 0;
    for gxid in 1..LAST + 1 {
        match decider.settle(disk, Gxid(gxid), wish(gxid)) {
            Ok((next, _)) => decider = next,
            Err(_) => return settled,
        }
        settled = gxid;
    }
    settled
}

// How many transactions from 1 on have what was wished; none behind them may have a verdict.
fn count_kept(decider: &Decider) -> Option<u64> {
    let mut kept = 0;
    for gxid in 1..LAST + 1 {
        match decider.kept(Gxid(gxid)) {
            None => {}
            Some(decision) if decision == wish(gxid) && kept == gxid - 1 => kept = gxid,
            Some(_) => return None,
        }
    }
    Some(kept)
}

// A run whose call on the disk with this number fails, and what is kept after a stop there.
fn stop_at(alloc: Global, call: u64, fill: u8) -> Result<(u64, Option<u64>), Fail> {
    let mut disk = DiskMem::new(alloc, 8, vec![in alloc; call]?)?;
    let settled = settle_some(alloc, &mut disk);
    let mut left = disk.stop(fill);
    let decider = open_log(alloc, &mut left)?;
    Ok((settled, count_kept(&decider)))
}

// How many were settled before this call, and whether the gate is pending in it.
fn before(call: u64) -> (u64, bool)
    requires { 0 < call }
{
    let calls = call - 1;
    if calls < OPEN {
        (0, false)
    } else {
        ((calls - OPEN) / SETTLE, (calls - OPEN) % SETTLE >= 2)
    }
}

#[test]
fn what_was_answered_stands_after_a_stop_at_each_call(rt: HostRuntime) -> Result<(), Fail> {
    let alloc = rt.alloc();
    for call in 1..OPEN + SETTLE * LAST + 1 {
        let (settled, is_gate_pending) = before(call);
        for fill in [0, 1, 255] {
            // a byte of 1 opens the gate: then the pair stands that wasn't answered
            let kept = settled.saturating_add(u64::from(is_gate_pending && fill == 1));
            let came = stop_at(alloc, call, fill)?;
            assert!(rt; came == (settled, Some(kept)), "call {call}, fill {fill}");
        }
    }
    Ok(())
}
