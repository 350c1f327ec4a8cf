ghost use Rattle.std.specs.Prelude.{◌≡◌, ◌<◌, ◌↔◌, min, length, take, IfOk, IsErr, OnOk, Some};
ghost use Rattle.std.specs.Io.{ReadsAtMost};
ghost use Rattle.std.specs.Io.KnownBytes.{ReadConsumes};
ghost use Rattle.gx_outside.specs.Causes.{HasCause};
ghost use Rattle.gx_outside.specs.Memory.{IsFailingNext, IsCounted};

use crate::memory::is_failing_next;
use crate::source::{Failed, Source};
use std::marker::Model;

/// A source whose bytes stand in memory.
#[derive(Drop)]
pub struct SourceMem {
    bytes: Vec<u8>,
    at: usize,
    at_most: usize,
    fail: Vec<u64>,
    calls: u64,
    faults: u64,
}

impl Model for SourceMem {
    ghost use Rattle.std.specs.Prelude.{◌≤◌, ◌<◌, drop, vec_len};
    ghost use Rattle.gx_outside.specs.Memory.{SourceState};

    ghost Value = { SourceState };

    ghost view = { λ s. record { left = drop s.at s.bytes.items; at_most = s.at_most; fail = s.fail.items; calls = s.calls; faults = s.faults } };

    ghost invariant = { λ s. (s.at ≤ vec_len s.bytes) × (0 < s.at_most) };
}

impl SourceMem {
    /// A source of these bytes. A read moves as many of them as `at_most` and the buffer allow, and the reads whose
    /// numbers stand in `fail`, counted from 1, fail.
    pub fn new(bytes: Vec<u8>, at_most: usize, fail: Vec<u64>) -> SourceMem
        requires { 0 < at_most }
        ensures { result ≡ record { left = bytes.items; at_most = at_most; fail = fail.items; calls = 0; faults = 0 } }
    {
        SourceMem {
            bytes,
            at: 0,
            at_most,
            fail,
            calls: 0,
            faults: 0,
        }
    }
}

impl Source for SourceMem {
    ghost left = { λ s. Some s.left };

    ghost fault_count = { λ s. s.faults };

    fn read(&mut self, buf: &mut [u8]) -> Result<usize, Failed>
        requires { 0 < length buf.old }
        ensures bound { ReadsAtMost result buf.new }
        ensures bytes { ReadConsumes (Some self.old.left) (Some self.new.left) result buf.new }
        ensures cause { HasCause self.old.faults self.new.faults result }
        ensures calm { OnOk result (self.new.faults ≡ self.old.faults) }
        ensures fails { IsErr result ↔ IsFailingNext self.old.calls self.old.fail }
        ensures moves { IfOk result (λ count. count ≡ min self.old.at_most (min (length buf.old) (length self.old.left))) }
        ensures counted { IsCounted self.old.calls self.new.calls self.old.faults self.new.faults result }
        ensures same { (self.new.at_most ≡ self.old.at_most) × (self.new.fail ≡ self.old.fail) }
    {
        let is_failing = is_failing_next(self.calls, self.fail.as_slice());
        self.calls = self.calls.saturating_add(1);
        if is_failing {
            self.faults = self.faults.saturating_add(1);
            return Err(Failed);
        }
        let count = move_front(&self.bytes[self.at..], buf, self.at_most);
        self.at += count;
        Ok(count)
    }

    fn faults(&self) -> u64 {
        self.faults
    }
}

// Copies bytes from the front, as many as there are and as fit, and at most `at_most`; answers how many.
fn move_front(from: &[u8], to: &mut [u8], at_most: usize) -> usize
    ensures count { result ≡ min at_most (min (length to.old) (length from.now)) }
    ensures moved { take result to.new ≡ take result from.now }
{
    let count = at_most.min(to.len()).min(from.len());
    to[..count].copy_from_slice(&from[..count]);
    count
}
