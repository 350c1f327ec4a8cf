// Reads and writes that go on to the end.
ghost use Rattle.std.specs.Prelude.{◌≡◌, ◌<◌, ◌≤◌, ◌++◌, List, ℕ, length, IfOk, OnOk, IsErrOf};
ghost use Rattle.std.specs.Io.KnownBytes.{Consumes, Appends, IsAtEnd};
ghost use Rattle.gx_outside.specs.Causes.{HasCause, Rose, WritesPrefix};

use crate::sink::Sink;
use crate::source::{Failed, Source};
use std::alloc::{AllocError, Global};

/// Why a whole read stopped: the source failed, or memory ran out.
#[derive(Clone, Copy)]
pub enum ReadFault {
    Failed,
    OutOfMemory,
}

impl From<AllocError> for ReadFault {
    ghost use Rattle.std.specs.Prelude.{◌≡◌};
    ghost use Rattle.gx_outside.specs.declared.whole.ReadFault.TheVariants as fault;

    ghost from_gives = { λ _ e. e ≡ fault.OutOfMemory };

    fn from(_error: AllocError) -> ReadFault {
        ReadFault::OutOfMemory
    }
}

impl From<Failed> for ReadFault {
    ghost use Rattle.std.specs.Prelude.{◌≡◌};
    ghost use Rattle.gx_outside.specs.declared.whole.ReadFault.TheVariants as fault;

    ghost from_gives = { λ _ e. e ≡ fault.Failed };

    fn from(_error: Failed) -> ReadFault {
        ReadFault::Failed
    }
}

// The most bytes that one read asks for.
const PIECE: usize = 4096;

// Adds the next bytes of the source, at most `room` of them; answers how many came.
fn read_piece<S: Source>(
    source: &mut S,
    bytes: &mut Vec<u8>,
    room: usize,
) -> Result<usize, ReadFault>
    requires { 0 < room }
    ensures some { IfOk result (λ count. (piece : List ℕ) × (length piece ≡ count) × (count ≤ room) × (bytes.new.items ≡ bytes.old.items ++ piece)
        × Consumes (S.left source.old) (S.left source.new) piece × (count ≡ 0 → IsAtEnd (S.left source.new))) }
    ensures later { S.fault_count source.old ≤ S.fault_count source.new }
    ensures failed { IsErrOf result ReadFault.Failed → Rose (S.fault_count source.old) (S.fault_count source.new) }
    ensures calm { OnOk result (S.fault_count source.new ≡ S.fault_count source.old) }
    ensures memory { IsErrOf result ReadFault.OutOfMemory → S.fault_count source.new ≡ S.fault_count source.old }
{
    let mut buf = [0u8; PIECE];
    let most = room.min(PIECE);
    let count = source.read(&mut buf[..most])?;
    bytes.extend_from_slice(&buf[..count])?;
    Ok(count)
}

/// Reads the source to its end, or `limit` bytes of it where it has as many.
pub fn read_up_to<S: Source>(
    alloc: Global,
    source: &mut S,
    limit: usize,
) -> Result<Vec<u8>, ReadFault>
    ensures bytes { IfOk result (λ bytes. Consumes (S.left source.old) (S.left source.new) bytes.items) }
    ensures limit { IfOk result (λ bytes. length bytes.items ≤ limit) }
    ensures whole { IfOk result (λ bytes. length bytes.items < limit → IsAtEnd (S.left source.new)) }
    ensures later { S.fault_count source.old ≤ S.fault_count source.new }
    ensures failed { IsErrOf result ReadFault.Failed → Rose (S.fault_count source.old) (S.fault_count source.new) }
    ensures calm { OnOk result (S.fault_count source.new ≡ S.fault_count source.old) }
    ensures memory { IsErrOf result ReadFault.OutOfMemory → S.fault_count source.new ≡ S.fault_count source.old }
{
    let mut bytes = Vec::new(alloc);
    for _turn in 0..limit {
        let room = limit - bytes.len();
        if room == 0 {
            return Ok(bytes);
        }
        let count = read_piece(source, &mut bytes, room)?;
        if count == 0 {
            return Ok(bytes);
        }
    }
    Ok(bytes)
}

/// Writes all the bytes. After a fault, a part of them from the front is written.
pub fn write_whole<K: Sink>(sink: &mut K, bytes: &[u8]) -> Result<(), Failed>
    ensures ok { OnOk result (Appends (K.written sink.old) (K.written sink.new) bytes.now) }
    ensures prefix { WritesPrefix (K.written sink.old) (K.written sink.new) bytes.now }
    ensures cause { HasCause (K.fault_count sink.old) (K.fault_count sink.new) result }
{
    let mut done = 0;
    while done < bytes.len() {
        done += sink.write(&bytes[done..])?;
    }
    Ok(())
}
