ghost use Rattle.std.specs.Prelude.{◌≡◌, ◌<◌, ◌-◌, ◌↔◌, [], min, length, IfOk, IsErr, Some, ◌⊎◌, if◌then◌else◌, is_err};
ghost use Rattle.std.specs.Io.KnownBytes.{WriteAppends};
ghost use Rattle.gx_outside.specs.Causes.{HasCause, IsWritePart};
ghost use Rattle.gx_outside.specs.Memory.{IsFailingNext, IsCounted};

use crate::memory::is_failing_next;
use crate::sink::Sink;
use crate::source::Failed;
use gx_ids::Mem;
use std::alloc::Global;
use std::marker::Model;

/// A sink that keeps the bytes in memory, all of which it takes when it is made.
#[derive(Drop)]
pub struct SinkMem {
    bytes: Vec<u8>,
    room: usize,
    at_most: usize,
    fail: Vec<u64>,
    calls: u64,
    faults: u64,
}

impl Model for SinkMem {
    ghost use Rattle.std.specs.Prelude.{◌≤◌, ◌<◌, ◌+◌, vec_len, vec_capacity};
    ghost use Rattle.gx_outside.specs.Memory.{SinkState};

    ghost Value = { SinkState };

    ghost view = { λ s. record { written = s.bytes.items; room = s.room; at_most = s.at_most; fail = s.fail.items; calls = s.calls; faults = s.faults } };

    ghost invariant = { λ s. (vec_len s.bytes + s.room ≤ vec_capacity s.bytes) × (0 < s.at_most) };
}

impl SinkMem {
    /// A sink with room for so many bytes. A write takes as many as `at_most` and the room allow; it fails where its
    /// number, counted from 1, stands in `fail`, and where the room is used up.
    pub fn new(alloc: Global, room: usize, at_most: usize, fail: Vec<u64>) -> Mem<SinkMem>
        requires { 0 < at_most }
        ensures { IfOk result (λ sink. sink ≡ record { written = []; room = room; at_most = at_most; fail = fail.items; calls = 0; faults = 0 }) }
    {
        Ok(SinkMem {
            bytes: Vec::with_capacity(alloc, room)?,
            room,
            at_most,
            fail,
            calls: 0,
            faults: 0,
        })
    }

    /// The bytes written, the oldest first.
    pub fn written(&self) -> &[u8]
        ensures { result.now ≡ self.now.written }
    {
        self.bytes.as_slice()
    }
}

impl Sink for SinkMem {
    ghost written = { λ s. Some s.written };

    ghost fault_count = { λ s. s.faults };

    fn write(&mut self, bytes: &[u8]) -> Result<usize, Failed>
        requires { 0 < length bytes.now }
        ensures part { IfOk result (IsWritePart bytes.now) }
        ensures bytes { WriteAppends (Some self.old.written) (Some self.new.written) result bytes.now }
        ensures cause { HasCause self.old.faults self.new.faults result }
        ensures fails { IsErr result ↔ (IsFailingNext self.old.calls self.old.fail ⊎ (self.old.room ≡ 0)) }
        ensures moves { IfOk result (λ count. (count ≡ min self.old.at_most (min (length bytes.now) self.old.room)) × (self.new.room ≡ self.old.room - count)) }
        ensures full { IsErr result → self.new.room ≡ self.old.room }
        ensures counted { IsCounted self.old.calls self.new.calls self.old.faults self.new.faults result }
        ensures same { (self.new.at_most ≡ self.old.at_most) × (self.new.fail ≡ self.old.fail) }
    {
        let is_failing = is_failing_next(self.calls, self.fail.as_slice());
        self.calls = self.calls.saturating_add(1);
        if is_failing || self.room == 0 {
            self.faults = self.faults.saturating_add(1);
            return Err(Failed);
        }
        let count = self.at_most.min(bytes.len()).min(self.room);
        self.bytes.extend_from_slice(&bytes[..count]).unwrap();
        self.room -= count;
        Ok(count)
    }

    fn faults(&self) -> u64 {
        self.faults
    }
}
