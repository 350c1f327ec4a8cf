ghost use Rattle.std.specs.Prelude.{◌≡◌, ℕ, ◌+◌, ◌*◌, ◌≤◌, ◌<◌, ◌↔◌, max, true, false, length, get_or, replicate, IfOk, OnOk, OnErr, IsErr, IsTrue};
ghost use Rattle.gx_outside.specs.Memory.{IsFailingNext, IsCounted};
ghost use Rattle.gx_decide.specs.Disk.{DiskState, IsCaused, IsRead, IsOutside, ReachesTo, StopLeaves, Written, Touched, Synced, Stayed};
ghost use Rattle.gx_decide.specs.Memory.{IsMarked, state_of};

use crate::disk::Disk;
use gx_ids::Mem;
use gx_outside::Failed;
use std::alloc::Global;
use std::marker::Model;

/// A disk in memory.
#[derive(Drop)]
pub struct DiskMem {
    bytes: Vec<u8>,
    pending: Vec<bool>,
    fail: Vec<u64>,
    calls: u64,
    faults: u64,
    reach: u64,
}

impl Model for DiskMem {
    ghost use Rattle.std.specs.Prelude.{◌≡◌, ◌≤◌, vec_len};
    ghost use Rattle.gx_decide.specs.Memory.{MemState};

    ghost Value = { MemState };

    ghost view = { λ d. record { bytes = d.bytes.items; pending = d.pending.items; fail = d.fail.items; calls = d.calls; faults = d.faults; reach = d.reach } };

    ghost invariant = { λ d. (vec_len d.pending ≡ vec_len d.bytes) × (d.faults ≤ d.calls) };
}

impl DiskMem {
    /// A disk of zeros with so many slots. The reads, writes and syncs whose numbers stand in `fail`, counted from 1 over
    /// the three, fail; a write that fails leaves its range pending.
    pub fn new(alloc: Global, slots: u32, fail: Vec<u64>) -> Mem<DiskMem>
        ensures { IfOk result (λ d. d ≡ record { bytes = replicate (16 * slots) 0; pending = replicate (16 * slots) false; fail = fail.items; calls = 0; faults = 0; reach = 0 }) }
    {
        let len = 16 * slots as usize;
        Ok(DiskMem {
            bytes: vec![in alloc; 0; len]?,
            pending: vec![in alloc; false; len]?,
            fail,
            calls: 0,
            faults: 0,
            reach: 0,
        })
    }

    /// What a stop leaves where each pending byte becomes `fill`. What stood there is lost, nothing is pending, and calls are counted on.
    pub fn stop(self, fill: u8) -> DiskMem
        ensures left { StopLeaves (state_of self) (state_of result) }
        ensures filled { (place : ℕ) → get_or self.pending place false ≡ true → get_or result.bytes place 0 ≡ fill }
        ensures same { (result.fail ≡ self.fail) × (result.calls ≡ self.calls) × (result.faults ≡ self.faults) × (result.reach ≡ self.reach) }
    {
        let DiskMem {
            mut bytes,
            mut pending,
            fail,
            calls,
            faults,
            reach,
        } = self;
        fill_pending(&mut bytes, &mut pending, fill);
        DiskMem {
            bytes,
            pending,
            fail,
            calls,
            faults,
            reach,
        }
    }

    // Counts a call, and its fault where it is one that fails.
    fn count(&mut self) -> Result<(), Failed>
        ensures fails { IsErr result ↔ IsFailingNext self.old.calls self.old.fail }
        ensures counted { IsCounted self.old.calls self.new.calls self.old.faults self.new.faults result }
        ensures cause { IsCaused self.old.faults self.new.faults result }
        ensures same { (self.new.bytes ≡ self.old.bytes) × (self.new.pending ≡ self.old.pending) × (self.new.fail ≡ self.old.fail) }
        ensures reach { self.new.reach ≡ self.old.reach }
    {
        let is_failing = is_failing_next(self.calls, self.fail.as_slice());
        self.calls = self.calls.saturating_add(1);
        if is_failing {
            self.faults = self.faults.saturating_add(1);
            return Err(Failed);
        }
        Ok(())
    }

    // Counts a call that asks for so many bytes from a place on.
    fn ask(&mut self, at: u64, many: usize) -> Result<(), Failed>
        requires { at + many ≤ length self.old.bytes }
        ensures fails { IsErr result ↔ IsFailingNext self.old.calls self.old.fail }
        ensures counted { IsCounted self.old.calls self.new.calls self.old.faults self.new.faults result }
        ensures cause { IsCaused self.old.faults self.new.faults result }
        ensures same { (self.new.bytes ≡ self.old.bytes) × (self.new.pending ≡ self.old.pending) × (self.new.fail ≡ self.old.fail) }
        ensures reach { self.new.reach ≡ max self.old.reach (at + many) }
    {
        // the disk's length bounds the end
        let _len = self.bytes.len();
        self.reach = self.reach.max(at + many as u64);
        self.count()
    }
}

impl Disk for DiskMem {
    ghost state = { λ d. state_of d };

    ghost reach = { λ d. d.reach };

    ghost fault_count = { λ d. d.faults };

    fn len(&self) -> u64 {
        self.bytes.len() as u64
    }

    fn read(&mut self, at: u64, buf: &mut [u8]) -> Result<(), Failed>
        requires { at + length buf.old ≤ length self.old.bytes }
        ensures length { length buf.new ≡ length buf.old }
        ensures ok { OnOk result (IsRead (state_of self.old).seen at buf.new) }
        ensures state { state_of self.new ≡ state_of self.old }
        ensures reach { self.new.reach ≡ max self.old.reach (at + length buf.old) }
        ensures cause { IsCaused self.old.faults self.new.faults result }
        ensures fails { IsErr result ↔ IsFailingNext self.old.calls self.old.fail }
        ensures counted { IsCounted self.old.calls self.new.calls self.old.faults self.new.faults result }
        ensures same { self.new.fail ≡ self.old.fail }
    {
        self.ask(at, buf.len())?;
        let at = at as usize;
        buf.copy_from_slice(&self.bytes[at..at + buf.len()]);
        Ok(())
    }

    fn write(&mut self, at: u64, bytes: &[u8]) -> Result<(), Failed>
        requires { at + length bytes.now ≤ length self.old.bytes }
        ensures ok { OnOk result (Written at bytes.now (state_of self.old) (state_of self.new)) }
        ensures err { OnErr result (Touched at (length bytes.now) (state_of self.old) (state_of self.new)) }
        ensures reach { self.new.reach ≡ max self.old.reach (at + length bytes.now) }
        ensures cause { IsCaused self.old.faults self.new.faults result }
        ensures unwritten { OnErr result (self.new.bytes ≡ self.old.bytes) }
        ensures pending { IsMarked at (length bytes.now) self.old.pending self.new.pending }
        ensures fails { IsErr result ↔ IsFailingNext self.old.calls self.old.fail }
        ensures counted { IsCounted self.old.calls self.new.calls self.old.faults self.new.faults result }
        ensures same { self.new.fail ≡ self.old.fail }
    {
        let counted = self.ask(at, bytes.len());
        mark(&mut self.pending, at as usize, bytes.len());
        counted?;
        put(&mut self.bytes, at as usize, bytes);
        Ok(())
    }

    fn sync(&mut self) -> Result<(), Failed>
        ensures ok { OnOk result (Synced (state_of self.old) (state_of self.new)) }
        ensures err { OnErr result (Stayed (state_of self.old) (state_of self.new)) }
        ensures reach { self.new.reach ≡ self.old.reach }
        ensures cause { IsCaused self.old.faults self.new.faults result }
        ensures pending { OnErr result (self.new.pending ≡ self.old.pending) }
        ensures fails { IsErr result ↔ IsFailingNext self.old.calls self.old.fail }
        ensures counted { IsCounted self.old.calls self.new.calls self.old.faults self.new.faults result }
        ensures same { (self.new.bytes ≡ self.old.bytes) × (self.new.fail ≡ self.old.fail) }
    {
        self.count()?;
        self.pending.fill(false);
        Ok(())
    }

    fn faults(&self) -> u64 {
        self.faults
    }
}

// Whether a call after `calls` others fails.
fn is_failing_next(calls: u64, fail: &[u64]) -> bool
    ensures { IsTrue result ↔ IsFailingNext calls fail.now }
{
    calls < u64::MAX && fail.contains(&(calls + 1))
}

// Marks a range as pending.
fn mark(pending: &mut [bool], at: usize, count: usize)
    requires { at + count ≤ length pending.old }
    ensures length { length pending.new ≡ length pending.old }
    ensures marked { IsMarked at count pending.old pending.new }
{
    pending[at..at + count].fill(true);
}

// Puts bytes in the place of those that are there.
fn put(bytes: &mut [u8], at: usize, from: &[u8])
    requires { at + length from.now ≤ length bytes.old }
    ensures length { length bytes.new ≡ length bytes.old }
    ensures there { (k : ℕ) → k < length from.now → get_or bytes.new (at + k) 0 ≡ get_or from.now k 0 }
    ensures elsewhere { (place : ℕ) → IsOutside at (length from.now) place → get_or bytes.new place 0 ≡ get_or bytes.old place 0 }
{
    bytes[at..at + from.len()].copy_from_slice(from);
}

// Writes `fill` over each pending byte, and leaves none pending.
fn fill_pending(bytes: &mut [u8], pending: &mut [bool], fill: u8)
    requires { length pending.old ≡ length bytes.old }
    ensures bytes { length bytes.new ≡ length bytes.old }
    ensures pending { length pending.new ≡ length pending.old }
    ensures filled { (place : ℕ) → get_or pending.old place false ≡ true → get_or bytes.new place 0 ≡ fill }
    ensures stayed { (place : ℕ) → get_or pending.old place false ≡ false → get_or bytes.new place 0 ≡ get_or bytes.old place 0 }
    ensures durable { (place : ℕ) → get_or pending.new place false ≡ false }
{
    for place in 0..bytes.len() {
        if pending[place] {
            bytes[place] = fill;
            pending[place] = false;
        }
    }
}
